// What a connection that speaks SCGI does.
mod play;
mod recorder;
mod rows;
