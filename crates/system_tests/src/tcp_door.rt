use fuxi_io::{Door, Failed, TcpDoor};
use std::io::{Read, Write};
use std::net::TcpListener;
use std::test::Fail;

// A door over a socket of the system: bytes go both ways, a peer that ends is an end and no fault, and what fails is a fault.
#[test]
fn bytes_go_both_ways(rt: HostRuntime) -> Result<(), Fail> {
    let listener = TcpListener::bind(&rt, "127.0.0.1:0")?;
    let text = format!(in rt.alloc(); "{}", listener.local_addr()?)?;
    let addr = text.as_bytes();
    assert!(rt; addr.len() >= 1);
    assert!(rt; addr.len() <= 255);
    let mut door = TcpDoor::of(&rt);
    assert_eq!(rt; door.dial(addr), Ok(()));
    let (mut peer, _) = listener.accept()?;

    let mut back = [0; 4];
    assert_eq!(rt; door.write(b"turn"), Ok(()));
    peer.read_exact(&mut back)?;
    assert_eq!(rt; back, *b"turn");

    peer.write_all(b"ends")?;
    assert_eq!(rt; door.read(&mut back), Ok(4));
    assert_eq!(rt; back, *b"ends");
    drop(peer);
    assert_eq!(rt; door.read(&mut back), Ok(0));

    // another one listens there already
    assert_eq!(rt; door.accept(addr), Err(Failed));
    assert_eq!(rt; door.dial(b"nowhere"), Err(Failed));
    assert_eq!(rt; door.read(&mut back), Err(Failed));
    Ok(())
}
