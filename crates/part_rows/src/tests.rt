// What the parts read and write, part by part.
mod base;
mod replies;
mod requests;
mod site;
mod tables;
