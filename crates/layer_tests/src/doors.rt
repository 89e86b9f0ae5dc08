//! A door in memory, and calls of any door.
use pat_door::{Door, MemoryDoor};
use std::alloc::{AllocError, Global};
use std::process::Abort;

pub(crate) fn opens<D: Door>(door: &mut D, address: &[u8]) -> bool {
    door.open(address).is_ok()
}

pub(crate) fn accepts<D: Door>(door: &mut D) -> bool {
    door.accept().is_ok()
}

/// Whether a call reads these bytes into a buffer of three.
pub(crate) fn reads<D: Door>(door: &mut D, wanted: &[u8]) -> bool {
    let mut buf = [0u8; 3];
    match door.read(&mut buf) {
        Ok(count) => &buf[..count] == wanted,
        Err(_) => false,
    }
}

pub(crate) fn read_fails<D: Door>(door: &mut D) -> bool {
    let mut buf = [0u8; 3];
    door.read(&mut buf).is_err()
}

/// Whether a call takes the whole piece.
pub(crate) fn takes<D: Door>(door: &mut D, piece: &[u8]) -> bool {
    match door.write(piece) {
        Ok(count) => count == piece.len(),
        Err(_) => false,
    }
}

pub(crate) fn write_fails<D: Door>(door: &mut D, piece: &[u8]) -> bool {
    door.write(piece).is_err()
}

pub(crate) fn hang_up<D: Door>(door: &mut D) {
    door.hang_up();
}

/// A door that brings `abcde` and `xy`, with room for six bytes, of which the fourth and the tenth call fail.
fn door_of_two(alloc: Global) -> Result<MemoryDoor, AllocError> {
    let first = Vec::from_slice(alloc, b"abcde")?;
    let second = Vec::from_slice(alloc, b"xy")?;
    let connections = vec![in alloc; first, second]?;
    MemoryDoor::new(alloc, connections, 6, vec![in alloc; 4, 10]?)
}

/// Holds what was answered on a connection against this.
fn is_answered(rt: &impl Abort, door: &MemoryDoor, number: usize, wanted: Option<&[u8]>) {
    assert!(rt; door.answers(number) == wanted);
}

#[test]
fn two_connections(rt: HostRuntime) {
    let mut door = door_of_two(rt.alloc()).expect(&rt, "memory");
    check_first(&rt, &mut door);
    check_second(&rt, &mut door);
    check_end(&rt, &mut door);
    is_answered(&rt, &door, 0, Some(b"1234"));
    is_answered(&rt, &door, 1, Some(b"56"));
    is_answered(&rt, &door, 2, None);
}

fn check_first<D: Door>(rt: &impl Abort, door: &mut D) {
    assert!(rt; opens(door, b"anywhere") && accepts(door));
    assert!(rt; reads(door, b"abc") && read_fails(door));
    assert!(rt; reads(door, b"de") && reads(door, b""));
    assert!(rt; takes(door, b"1234"));
    hang_up(door);
    assert!(rt; write_fails(door, b"5"), "no connection is accepted");
}

fn check_second<D: Door>(rt: &impl Abort, door: &mut D) {
    assert!(rt; accepts(door) && read_fails(door));
    assert!(rt; reads(door, b"xy"));
    assert!(rt; write_fails(door, b"567"), "there is room for two bytes");
    assert!(rt; takes(door, b"56"));
}

fn check_end<D: Door>(rt: &impl Abort, door: &mut D) {
    assert!(rt; !accepts(door), "no connection is left");
    assert!(rt; takes(door, b""), "the second one is still accepted");
    hang_up(door);
    assert!(rt; read_fails(door) && opens(door, b"anywhere"));
}
