use loop_bell::Bell;
use net_sockets::{Listener, NetFault, NetPorts, Network};
use socket_set::{Arrival, Ports, Ready, Received, Sent, Socket};
use std::alloc::Global;
use std::io::{Read, Write};
use std::net::{Net, Shutdown, TcpStream};
use std::process::Abort;
use std::test::Fail;
use std::time::Clock;

// So many waits at most for what has to come.
const WAITS: u32 = 50;

// A listener at a free port.
fn listener<R: Net + Clock + Copy + Drop>(network: &mut Network<R>) -> Result<Listener, Fail> {
    match network.listen("127.0.0.1", 0) {
        Ok(listener) => Ok(listener),
        Err(_) => Err(Fail::from("it does not listen")),
    }
}

// The ports of a loop, and what wakes it.
fn ports_of<R: Net + Clock + Copy + Drop>(
    network: &mut Network<R>,
    listener: Listener,
) -> Result<(NetPorts<R>, Bell), Fail> {
    match network.ports(listener) {
        Ok(made) => Ok(made),
        Err(_) => Err(Fail::from("there are no ports")),
    }
}

// The ports of a loop that listens at a free port, what wakes it, and the port.
fn listening<R: Net + Clock + Copy + Drop>(
    rt: R,
    alloc: Global,
) -> Result<(NetPorts<R>, Bell, u16), Fail> {
    let mut network = Network::new(rt, alloc);
    let listener = listener(&mut network)?;
    let port = listener.port();
    let (ports, bell) = ports_of(&mut network, listener)?;
    Ok((ports, bell, port))
}

// The ports of two loops at one listener, and its port.
fn shared<R: Net + Clock + Copy + Drop>(
    network: &mut Network<R>,
) -> Result<(NetPorts<R>, NetPorts<R>, u16), Fail> {
    let listener = listener(network)?;
    let port = listener.port();
    let other = listener.another()?;
    let (one, _) = ports_of(network, listener)?;
    let (two, _) = ports_of(network, other)?;
    Ok((one, two, port))
}

// A client of that port.
fn connected<N: Net<Stream = TcpStream>>(net: &N, port: u16) -> Result<TcpStream, Fail> {
    Ok(TcpStream::connect(net, ("127.0.0.1", port))?)
}

// The next client, once it waits.
fn accepted<P: Ports>(ports: &mut P) -> Option<P::Socket> {
    for _ in 0..WAITS {
        if let Arrival::Client { socket, .. } = ports.accept() {
            return Some(socket);
        }
        ports.wait(100);
    }
    None
}

fn who_comes<P: Ports>(ports: &mut P) -> Result<P::Socket, Fail> {
    match accepted(ports) {
        Some(socket) => Ok(socket),
        None => Err(Fail::from("nobody came")),
    }
}

fn is_accepted<P: Ports>(ports: &mut P) -> bool {
    accepted(ports).is_some()
}

// Whether it takes nobody.
fn leaves<P: Ports>(ports: &mut P) -> bool {
    matches!(ports.accept(), Arrival::Nothing)
}

// What the socket receives, once there is anything.
fn received<S: Socket>(socket: &mut S, into: &mut [u8]) -> Received {
    for _ in 0..1_000_000 {
        match socket.receive(into) {
            Received::Nothing => {}
            other => return other,
        }
    }
    Received::Nothing
}

// Whether one wait reports client 7.
fn is_reported_by<P: Ports>(ports: &mut P) -> bool {
    ports.wait(20);
    for _ in 0..1_000 {
        match ports.ready() {
            Some(Ready::Client { c: 7, .. }) => return true,
            Some(_) => {}
            None => break,
        }
    }
    false
}

// Whether the wait reports client 7.
fn is_reported<P: Ports>(ports: &mut P, waits: u32) -> bool {
    for _ in 0..waits {
        if is_reported_by(ports) {
            return true;
        }
    }
    false
}

// Writes until no more is taken, and answers how many bytes were.
fn filled<S: Socket>(socket: &mut S) -> u64 {
    let piece = [b'x'; 1_024];
    let mut taken = 0u64;
    for _ in 0..1_000_000 {
        match socket.send(&piece) {
            Sent::Took(count) => taken = taken.saturating_add(count as u64),
            Sent::Full | Sent::Failed => return taken,
        }
    }
    taken
}

fn accepts_two<A: Abort, P: Ports>(rt: &A, ports: &mut P) {
    assert!(rt; is_accepted(ports));
    assert!(rt; is_accepted(ports));
    assert!(rt; leaves(ports));
}

#[test]
fn clients_are_accepted_until_none_waits(rt: HostRuntime) -> Result<(), Fail> {
    let (mut ports, _, port) = listening(rt, rt.alloc())?;
    let first = connected(&rt, port)?;
    let second = connected(&rt, port)?;
    accepts_two(&rt, &mut ports);
    drop(first);
    drop(second);
    Ok(())
}

fn goes_both_ways<A: Abort, S: Socket>(
    rt: &A,
    client: &mut TcpStream,
    socket: &mut S,
) -> Result<(), Fail> {
    let mut bytes = [0u8; 8];
    client.write_all(b"ab")?;
    assert_eq!(rt; received(socket, &mut bytes), Received::Bytes(2));
    assert_eq!(rt; socket.receive(&mut bytes), Received::Nothing);
    assert_eq!(rt; socket.send(b"cde"), Sent::Took(3));
    socket.end_sending();
    assert_eq!(rt; client.read(&mut bytes)?, 3);
    assert_eq!(rt; client.read(&mut bytes)?, 0);
    client.write_all(b"f")?;
    assert_eq!(rt; received(socket, &mut bytes), Received::Bytes(1));
    client.shutdown(Shutdown::Write)?;
    assert_eq!(rt; received(socket, &mut bytes), Received::End);
    Ok(())
}

#[test]
fn bytes_go_both_ways_and_each_side_ends(rt: HostRuntime) -> Result<(), Fail> {
    let (mut ports, _, port) = listening(rt, rt.alloc())?;
    let mut client = connected(&rt, port)?;
    let mut socket = who_comes(&mut ports)?;
    goes_both_ways(&rt, &mut client, &mut socket)
}

// Reads so many bytes, as far as they come.
fn read_all(client: &mut TcpStream, count: u64) -> Result<(), Fail> {
    let mut bytes = [0u8; 1_024];
    let mut left = count;
    for _ in 0..1_000_000 {
        if left == 0 {
            break;
        }
        left = left.saturating_sub(client.read(&mut bytes)? as u64);
    }
    Ok(())
}

fn reports_room<A: Abort, P: Ports>(
    rt: &A,
    ports: &mut P,
    client: &mut TcpStream,
    socket: &mut P::Socket,
) -> Result<(), Fail> {
    assert!(rt; ports.watch(socket, 7, false));
    assert!(rt;
        !is_reported(ports, 3),
        "it has no bytes, and its room is not asked for"
    );
    let taken = filled(socket);
    assert!(rt; ports.watch(socket, 7, true));
    read_all(client, taken)?;
    assert!(rt; is_reported(ports, WAITS), "it has room");
    ports.forget(socket);
    client.write_all(b"a")?;
    assert!(rt; !is_reported(ports, 3), "it is forgotten");
    Ok(())
}

#[test]
fn room_is_reported_once_it_is_asked_for(rt: HostRuntime) -> Result<(), Fail> {
    let (mut ports, _, port) = listening(rt, rt.alloc())?;
    let mut client = connected(&rt, port)?;
    let mut socket = who_comes(&mut ports)?;
    reports_room(&rt, &mut ports, &mut client, &mut socket)
}

// Whether a loop can listen there.
fn is_free<R: Net + Clock + Copy + Drop>(network: &mut Network<R>, port: u16) -> bool {
    network.listen("127.0.0.1", port).is_ok()
}

fn end_both<A: Abort, R: Net + Clock + Copy + Drop, P: Ports>(
    rt: &A,
    network: &mut Network<R>,
    port: u16,
    one: &mut P,
    two: &mut P,
) {
    one.end_listening();
    assert!(rt; !is_free(network, port));
    two.end_listening();
    assert!(rt; is_free(network, port));
    assert!(rt; leaves(one));
}

#[test]
fn an_address_is_free_once_all_have_let_go_of_it(rt: HostRuntime) -> Result<(), Fail> {
    let mut network = Network::new(rt, rt.alloc());
    let (mut one, mut two, port) = shared(&mut network)?;
    end_both(&rt, &mut network, port, &mut one, &mut two);
    Ok(())
}

fn is_woken<A: Abort, P: Ports>(rt: &A, ports: &mut P, bell: &Bell) -> Result<(), Fail> {
    bell.another()?.ring();
    assert!(rt; ports.wait(20_000));
    assert!(rt; ports.ticks() < 100, "the bell ended the wait");
    // The wait after one that was woken only looks, so that what woke it is heard first.
    assert!(rt; ports.wait(20_000));
    assert!(rt; ports.ticks() < 100, "it only looked");
    let before = ports.ticks();
    assert!(rt; ports.wait(150));
    assert!(rt; ports.ticks() > before);
    Ok(())
}

fn is_no_address<R: Net + Clock + Copy + Drop>(rt: R, alloc: Global) -> bool {
    let mut network = Network::new(rt, alloc);
    matches!(network.listen("nowhere", 0), Err(NetFault::Failed))
}

#[test]
fn a_bell_ends_a_wait_and_the_clock_goes_on(rt: HostRuntime) -> Result<(), Fail> {
    let (mut ports, bell, _) = listening(rt, rt.alloc())?;
    is_woken(&rt, &mut ports, &bell)?;
    assert!(rt; is_no_address(rt, rt.alloc()));
    Ok(())
}

// Two loops at one listener, and who came to it.
#[derive(Drop)]
struct Both<P: Ports> {
    first: P,
    second: P,
    port: u16,
    clients: Vec<TcpStream>,
    sockets: Vec<P::Socket>,
}

// Whether one more could connect.
fn comes<N: Net<Stream = TcpStream>, P: Ports>(net: &N, shared: &mut Both<P>) -> bool {
    match TcpStream::connect(net, ("127.0.0.1", shared.port)) {
        Ok(client) => shared.clients.push(client).is_ok(),
        Err(_) => false,
    }
}

// Whether a loop takes who waits.
fn takes<P: Ports>(ports: &mut P, sockets: &mut Vec<P::Socket>) -> bool {
    match accepted(ports) {
        Some(mut socket) => {
            ports.watch(&mut socket, sockets.len() as u64, false) && sockets.push(socket).is_ok()
        }
        None => false,
    }
}

// Whether its listener is reported by the next wait, and then its clock shows a tick more.
fn asks_again<P: Ports>(ports: &mut P) -> bool {
    ports.wait(100);
    if !matches!(ports.ready(), Some(Ready::Listener)) {
        return false;
    }
    let before = ports.ticks();
    for _ in 0..WAITS {
        ports.wait(100);
        if ports.ticks() > before {
            return true;
        }
    }
    false
}

// Whether a loop leaves who comes to one that has fewer, and takes whom that one doesn't take in a tick.
fn is_spread<N: Net<Stream = TcpStream>, P: Ports>(net: &N, it: &mut Both<P>) -> bool {
    comes(net, it)
        && takes(&mut it.first, &mut it.sockets)
        && comes(net, it)
        && leaves(&mut it.first)
        && takes(&mut it.second, &mut it.sockets)
        && comes(net, it)
        && takes(&mut it.first, &mut it.sockets)
        && comes(net, it)
        && leaves(&mut it.first)
        && asks_again(&mut it.first)
        && takes(&mut it.first, &mut it.sockets)
}

#[test]
fn clients_are_spread_over_loops(rt: HostRuntime) -> Result<(), Fail> {
    let alloc = rt.alloc();
    let mut network = Network::new(rt, alloc);
    let (first, second, port) = shared(&mut network)?;
    let mut both = Both {
        first,
        second,
        port,
        clients: Vec::new(alloc),
        sockets: Vec::new(alloc),
    };
    let is_right = is_spread(&rt, &mut both);
    assert!(rt; is_right);
    Ok(())
}
