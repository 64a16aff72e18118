// What a child is started with (RFC 3875 4.1): the program, its folder, its arguments and its environment, one a line.
use super::super::parts::Parts;
use super::asks::{Ask, Sized};
use super::site::{Place, Target};

fn push_pair(text: &mut Parts, name: &str, value: &str) {
    if value.is_empty() && name != "QUERY_STRING" {
        return;
    }
    text.push(name);
    text.push("=");
    text.push_line(value);
}

fn push_program(text: &mut Parts, target: &Target) {
    if let Place::Runs { program, dir, .. } = target.place {
        text.push_line(program);
        text.push_line(dir);
    }
}

fn push_length(text: &mut Parts, ask: &Ask) {
    if ask.sized != Sized::None {
        text.push("CONTENT_LENGTH=");
        text.push_number(ask.body.len() as u64);
        text.push("\n");
    }
}

// A script behind a local redirect has no body.
fn push_body(text: &mut Parts, ask: &Ask, hop: usize) {
    if hop > 0 {
        return;
    }
    push_length(text, ask);
    push_pair(
        text,
        "CONTENT_TYPE",
        if ask.typed { "text/plain" } else { "" },
    );
}

// The host that the request names: that of its target, where it has one.
fn server_name(ask: &Ask) -> &'static str {
    if ask.target.text.starts_with("http://") {
        "a"
    } else {
        ask.seat.name
    }
}

fn method_at(ask: &Ask, hop: usize) -> &'static str {
    if hop == 0 || ask.is_head() {
        ask.method
    } else {
        "GET"
    }
}

fn extra_told(ask: &Ask, hop: usize) -> &'static str {
    if hop == 0 {
        ask.extra.told
    } else {
        ask.extra.told_later
    }
}

fn push_place(text: &mut Parts, target: &Target) {
    push_pair(text, "PATH_INFO", target.info);
    push_pair(text, "PATH_TRANSLATED", target.translated);
    push_pair(text, "QUERY_STRING", target.query);
    push_pair(text, "REMOTE_ADDR", "192.0.2.1");
    push_pair(text, "REMOTE_HOST", "192.0.2.1");
}

fn protocol_of(ask: &Ask) -> &'static str {
    if ask.old { "HTTP/1.0" } else { "HTTP/1.1" }
}

fn push_server(text: &mut Parts, ask: &Ask) {
    push_pair(text, "SERVER_NAME", server_name(ask));
    push_pair(text, "SERVER_PORT", "8080");
    push_pair(text, "SERVER_PROTOCOL", protocol_of(ask));
    push_pair(text, "SERVER_SOFTWARE", "cgihost/1");
}

fn push_args(text: &mut Parts, args: &[&str]) {
    for arg in args {
        text.push_line(*arg);
    }
}

// What runs, with its arguments and its body.
fn push_run(text: &mut Parts, ask: &Ask, target: &Target, hop: usize) {
    push_program(text, target);
    push_args(text, ask.args(hop, target));
    push_body(text, ask, hop);
}

pub fn push_launch(text: &mut Parts, ask: &Ask, target: &Target, hop: usize) {
    push_run(text, ask, target, hop);
    push_pair(text, "GATEWAY_INTERFACE", "CGI/1.1");
    push_place(text, target);
    push_pair(text, "REQUEST_METHOD", method_at(ask, hop));
    push_pair(text, "SCRIPT_NAME", target.name);
    push_server(text, ask);
    push_pair(text, "HTTP_HOST", ask.seat.value);
    text.push(extra_told(ask, hop));
}
