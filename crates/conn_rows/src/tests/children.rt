// What the run of one child does, and what the flags of a connection say.
mod flags;
mod runs;
