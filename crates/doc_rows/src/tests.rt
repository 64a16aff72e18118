// What a client of documents is answered, and the ranges of RFC 9110 14.1.2.
mod ranges;
mod replies;
