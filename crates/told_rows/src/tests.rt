mod misfits;
mod steps;
