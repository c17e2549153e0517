// Links, listeners, clocks and gates: in memory once as planned, and each of the machine's once.
use outside::{
    Clock, Failed, Gate, Link, ListClock, Listener, MemLink, MemListener, OpenGate, PauseGate,
    TcpDoor, TcpLink,
};
use std::alloc::{AllocError, Global};
use std::net::{Net, TcpListener, TcpStream};
use std::sync::Wait;
use std::test::Fail;
use std::time;
use std::time::Duration;

// A link with these bytes left, of which the second read and the first write fail.
fn link_of(alloc: Global, text: &[u8]) -> Result<MemLink, AllocError> {
    let mut bytes = Vec::new(alloc);
    bytes.extend_from_slice(text)?;
    let failing_reads = vec![in alloc; 2u64]?;
    let failing_writes = vec![in alloc; 1u64]?;
    Ok(MemLink::new(alloc, bytes, failing_reads, failing_writes))
}

// What two writes and four reads into three bytes give, one of the writes before the reads and one amid them.
fn planned_calls(link: &mut MemLink) -> ([Result<(), Failed>; 2], [Result<usize, Failed>; 4]) {
    let mut to = [0u8; 3];
    let first = link.write_all_of(b"wxyz");
    let one = link.read(&mut to);
    let two = link.read(&mut to);
    let second = link.write_all_of(b"!");
    let three = link.read(&mut to);
    let four = link.read(&mut to);
    ([first, second], [one, two, three, four])
}

#[test]
fn memory_link_fails_as_planned(rt: HostRuntime) -> Result<(), Fail> {
    let mut link = link_of(rt.alloc(), b"abcde")?;
    let wanted = ([Err(Failed), Ok(())], [Ok(3), Err(Failed), Ok(2), Ok(0)]);
    assert_eq!(rt; planned_calls(&mut link), wanted);
    assert_eq!(rt; link.written(), Some(b"wx!".as_slice()));
    let was_closed = link.is_closed();
    link.close();
    assert_eq!(rt; [was_closed, link.is_closed()], [false, true]);
    Ok(())
}

// A listener of two links that fails at its second call.
fn listener_of(alloc: Global) -> Result<MemListener<MemLink>, AllocError> {
    let first = link_of(alloc, b"a")?;
    let second = link_of(alloc, b"bc")?;
    let links = vec![in alloc; first, second]?;
    Ok(MemListener::new(links, vec![in alloc; 2u64]?))
}

// What a listener's next call gives, and of a link what its first read gives.
fn next_read(listener: &mut MemListener<MemLink>) -> Result<Option<Result<usize, Failed>>, Failed> {
    let mut to = [0u8; 3];
    match listener.next()? {
        Some(mut link) => Ok(Some(link.read(&mut to))),
        None => Ok(None),
    }
}

#[test]
fn memory_listener_fails_as_planned(rt: HostRuntime) -> Result<(), Fail> {
    let mut listener = listener_of(rt.alloc())?;
    for wanted in [Ok(Some(Ok(1))), Err(Failed), Ok(Some(Ok(2))), Ok(None)] {
        assert_eq!(rt; next_read(&mut listener), wanted);
    }
    Ok(())
}

#[test]
fn clocks_and_gates(rt: HostRuntime) {
    let mut list = ListClock::new(&[5, 400000000000, 7]);
    let four = [list.now(), list.now(), list.now(), list.now()];
    assert_eq!(rt; four, [5, 253402300799, 7, 7]);
    assert_eq!(rt; ListClock::new(&[]).now(), 0);
    let gate = PauseGate::new(&rt, Duration::from_millis(1));
    assert!(rt; OpenGate.pass(0, true) && gate.pass(1, true) && gate.pass(2, false));
}

// Both ends of a connection over the machine's own address, None where the machine refuses one.
fn tcp_links<'a, R: Net<Listener = TcpListener, Stream = TcpStream> + time::Clock + Wait + Sync>(
    rt: &'a R,
) -> Option<(TcpLink<'a, R>, TcpLink<'a, R>)> {
    let mut door = TcpDoor::open(rt, "127.0.0.1:0", Duration::from_secs(5));
    let address = door.address()?;
    let stream = TcpStream::connect(rt, address).ok()?;
    let client = TcpLink::over(rt, stream, Duration::from_millis(50));
    match door.next() {
        Ok(Some(link)) => Some((client, link)),
        _ => None,
    }
}

// What is given as four bytes go to the link and five come back, and then by a read that waits too long.
fn exchanged<R: time::Clock>(
    client: &mut TcpLink<'_, R>,
    link: &mut TcpLink<'_, R>,
) -> ([Result<(), Failed>; 2], [Result<usize, Failed>; 3], [u8; 8]) {
    let mut to = [0u8; 8];
    let ping = client.write_all_of(b"ping");
    let four = link.read(&mut to);
    let pong = link.write_all_of(b"pong!");
    let five = client.read(&mut to);
    let late = client.read(&mut [0u8; 8]);
    ([ping, pong], [four, five, late], to)
}

#[test]
fn tcp_link_over_loopback(rt: HostRuntime) -> Result<(), Fail> {
    let (mut client, mut link) = tcp_links(&rt).ok_or("no connection")?;
    let wanted = (
        [Ok(()), Ok(())],
        [Ok(4), Ok(5), Err(Failed)],
        *b"pong!\0\0\0",
    );
    assert_eq!(rt; exchanged(&mut client, &mut link), wanted);
    Ok(())
}

// The link is kept behind its close, since one that is dropped is closed by the machine.
#[test]
fn peer_sees_the_close(rt: HostRuntime) -> Result<(), Fail> {
    let (mut client, mut link) = tcp_links(&rt).ok_or("no connection")?;
    link.close();
    let ended = client.read(&mut [0u8; 8]);
    let late = link.write_all_of(b"late");
    assert_eq!(rt; (ended, late), (Ok(0), Err(Failed)));
    Ok(())
}

#[test]
fn closed_door_fails(rt: HostRuntime) {
    let mut door = TcpDoor::open(&rt, "no address", Duration::from_secs(5));
    assert!(rt; door.next().is_err());
}
