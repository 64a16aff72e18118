//! The types of records (FastCGI 1.0, 8).

/// A request begins: role and flags (5.1).
pub const BEGIN_REQUEST: u8 = 1;
/// The request is given up (5.4).
pub const ABORT_REQUEST: u8 = 2;
/// The request has ended: status of the application and of the protocol (5.5).
pub const END_REQUEST: u8 = 3;
/// A piece of the variables of a request (5.2).
pub const PARAMS: u8 = 4;
/// A piece of the body of a request (5.3).
pub const STDIN: u8 = 5;
/// A piece of an answer (5.3).
pub const STDOUT: u8 = 6;
/// Asks for variables of the application (4.1).
pub const GET_VALUES: u8 = 9;
/// What was asked for (4.1).
pub const GET_VALUES_RESULT: u8 = 10;
/// Tells a type that isn't served (4.2).
pub const UNKNOWN_TYPE: u8 = 11;
