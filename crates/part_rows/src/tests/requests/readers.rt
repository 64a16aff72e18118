// What a reader answers: whole, byte by byte, and cut in two at each place.
pub mod faults;
pub mod framings;
pub mod long;
pub mod parts;
mod reading;
pub mod requests;
pub mod waiting;
