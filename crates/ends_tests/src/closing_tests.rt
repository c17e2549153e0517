// What no clause can say of a close: what the other end reads then, and how long it takes.
use outside::{Link, Listener, TcpDoor, TcpLink};
use std::io::{Read, Write};
use std::net::{Net, SocketAddr, TcpStream};
use std::sync::Wait;
use std::test::Fail;
use std::thread;
use std::time::{Clock, Duration, Instant};

// Connects, sends the body in two halves with 300 milliseconds between them, and reads to the end. How many bytes came, None where a call
// failed.
fn reply_to<R: Net<Stream = TcpStream> + Clock>(
    rt: &R,
    address: SocketAddr,
    body: &[u8],
) -> Option<usize> {
    let mut stream = TcpStream::connect(rt, address).ok()?;
    let (first, second) = body.split_at(body.len() / 2);
    stream.write_all(first).ok()?;
    thread::sleep(rt, Duration::from_millis(300));
    stream.write_all(second).ok()?;
    read_to_end(&mut stream)
}

// How many bytes come to the end, at most 160.
fn read_to_end(stream: &mut TcpStream) -> Option<usize> {
    let mut to = [0u8; 16];
    let mut all = 0usize;
    for _ in 0..10 {
        let count = stream.read(&mut to).ok()?;
        if count == 0 {
            return Some(all);
        }
        all = all.saturating_add(count);
    }
    None
}

// Connects, and sends a byte each 20 milliseconds, until a write fails or for 6 seconds.
fn drip_to<R: Net<Stream = TcpStream> + Clock>(rt: &R, address: SocketAddr) -> Option<()> {
    let mut stream = TcpStream::connect(rt, address).ok()?;
    for _ in 0..300 {
        stream.write_all(b"x").ok()?;
        thread::sleep(rt, Duration::from_millis(20));
    }
    None
}

// Takes the door's next link, reads a few bytes of it, replies with five and closes it. How long the close took, None where a call failed.
fn answer<R: Clock + Wait + Sync>(rt: &R, door: &mut TcpDoor<'_, R>) -> Option<Duration> {
    let mut link = door.next().ok()??;
    let mut to = [0u8; 100];
    link.read(&mut to).ok()?;
    link.write_all_of(b"reply").ok()?;
    time_of_close(rt, &mut link)
}

fn time_of_close<R: Clock>(rt: &R, link: &mut TcpLink<'_, R>) -> Option<Duration> {
    let start = Instant::now(rt).ok()?;
    link.close();
    start.elapsed(rt).ok()
}

#[test]
fn reply_reaches_a_peer_that_still_sends(rt: HostRuntime) -> Result<(), Fail> {
    let mut door = TcpDoor::open(&rt, "127.0.0.1:0", Duration::from_secs(5));
    let address = door.address().ok_or("no door")?;
    let body = vec![in rt.alloc(); b'x'; 300_000]?;
    let (came, closed) = thread::join(
        &rt,
        || reply_to(&rt, address, &body),
        || answer(&rt, &mut door),
    );
    assert_eq!(rt; came, Some(5));
    assert!(rt; closed.is_some_and(|time| time.as_millis() < 1000));
    Ok(())
}

#[test]
fn dripping_peer_holds_a_close_for_two_seconds(rt: HostRuntime) -> Result<(), Fail> {
    let mut door = TcpDoor::open(&rt, "127.0.0.1:0", Duration::from_secs(5));
    let address = door.address().ok_or("no door")?;
    let (_, closed) = thread::join(&rt, || drip_to(&rt, address), || answer(&rt, &mut door));
    let time = closed.ok_or("no close")?.as_millis();
    assert!(rt; 1900 <= time && time < 3000);
    Ok(())
}
