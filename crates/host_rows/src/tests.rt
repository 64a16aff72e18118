// What no clause says: runs by the top call over memory, the table of what fits at the edges of the outside in memory and
// runs of it from its first event to its last, what loops over memory tell in worked cases, that loops run beside each other,
// and small samples.
mod beside;
mod commands;
mod connections;
mod drive;
mod explaining;
mod fits;
mod handshakes;
mod heads;
mod interleaved;
mod launches;
mod limits;
mod lines;
mod lists;
mod misfits;
mod outputs;
mod outside;
mod pieces;
mod play;
mod replies;
mod requests;
mod run;
mod samples;
mod script;
mod stops;
mod talk_ends;
mod talks;
mod texts;
mod told;
mod words;
mod world;
