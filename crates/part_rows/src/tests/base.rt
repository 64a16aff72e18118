// What the shared types and the small parts give.
mod cases;
mod children;
mod clocks;
mod handshakes;
mod lines;
mod links;
mod shown;
mod types;
