//! Tests of what meets the world: of pumps, of children and their tickets, of clients and sockets, and of the outsides made of them;
//! over fakes in memory, over real threads, over loopback, and over programs of the system. There is no code beside the tests.
#![tactic(auto)]

#[cfg(test)]
mod tests;
