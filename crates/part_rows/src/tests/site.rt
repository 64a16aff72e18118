// What files say, by the tables of the format.
mod counts;
mod examples;
mod kinds;
mod lines;
mod orders;
mod rows;
