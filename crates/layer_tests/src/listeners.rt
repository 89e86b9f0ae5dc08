//! A TCP listener as a door.
use crate::doors::{accepts, hang_up, opens, read_fails, reads, takes, write_fails};
use pat_door::{Door, ListenerDoor};
use std::io::{Read, Write};
use std::net::{Net, OpenListener, SocketAddr, TcpListener, TcpStream};
use std::process::Abort;

/// An address of this machine at which nobody listens.
fn free_address<R: Net>(net: &R) -> Option<SocketAddr> {
    TcpListener::bind(net, "127.0.0.1:0")
        .ok()?
        .local_addr()
        .ok()
}

/// Whether who asks is told these bytes.
fn is_told<S: Read>(stream: &mut S, wanted: &[u8]) -> bool {
    let mut buf = [0u8; 8];
    match stream.read(&mut buf) {
        Ok(count) if count <= 8 => &buf[..count] == wanted,
        _ => false,
    }
}

/// A connection to an address.
fn connect<R: Net>(net: &R, address: SocketAddr) -> Option<R::Stream> {
    TcpStream::connect(net, address).ok()
}

fn asks<S: Write>(stream: &mut S, piece: &[u8]) -> bool {
    stream.write(piece).is_ok()
}

/// Two who ask, one after another.
fn on_loopback<R: Net + Abort, D: Door>(rt: &R, door: &mut D, address: SocketAddr) {
    let mut first = connect(rt, address).expect(rt, "a connection");
    assert!(rt; asks(&mut first, b"ask"));
    assert!(rt;
        write_fails(door, b"none") && read_fails(door),
        "none is accepted"
    );
    assert!(rt; accepts(door) && reads(door, b"ask"));
    assert!(rt; takes(door, b"answer") && is_told(&mut first, b"answer"));
    let mut second = connect(rt, address).expect(rt, "a connection");
    assert!(rt;
        accepts(door) && is_told(&mut first, b""),
        "the next one was accepted"
    );
    hang_up(door);
    assert!(rt; is_told(&mut second, b""), "it was hung up");
    assert!(rt; write_fails(door, b"late"));
}

#[test]
fn a_listener(rt: HostRuntime) {
    let address = free_address(&rt).expect(&rt, "an address");
    let text = format!(in rt.alloc(); "{address}").expect(&rt, "memory");
    let mut door = ListenerDoor::new(&rt);
    assert!(rt; !accepts(&mut door), "it doesn't listen yet");
    assert!(rt; !opens(&mut door, b"127.0.0.1:\xff"), "no UTF-8");
    assert!(rt; opens(&mut door, text.as_bytes()));
    on_loopback(&rt, &mut door, address);
}
