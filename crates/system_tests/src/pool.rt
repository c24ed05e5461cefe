use fuxi_terms::OutOfMemory;
use slot_pool::Pool;

// That room can be had, that it serves again once a value was taken out, and that too many numbers are refused.
#[test]
fn room_serves_again(rt: HostRuntime) -> Result<(), OutOfMemory> {
    let mut pool = Pool::with_room(rt.alloc(), 2)?;
    let first = pool.put(10u8);
    let second = pool.put(20);
    assert_eq!(rt; pool.spare(), 0);
    let value = pool.take(second);
    assert_eq!(rt; value, 20);
    let again = pool.put(30);
    assert!(rt; pool.live(first));
    assert!(rt; !pool.live(second));
    assert!(rt; pool.live(again));
    assert_eq!(rt; (again.number, again.generation), (second.number, 1));
    pool.reserve(1)?;
    assert_eq!(rt; pool.spare(), 1);
    assert!(rt; pool.reserve(4_294_967_297).is_err());
    Ok(())
}
