use super::*;
use std::test::Fail;
use std::thread::{self, Threads};

#[test]
fn what_was_put_first_is_taken_first(rt: HostRuntime) -> Result<(), Fail> {
    let queue = SharedQueue::new(rt.alloc(), 3)?;
    assert_eq!(rt; queue.take(), None::<u32>, "none is there");
    for value in [1u32, 2, 3] {
        assert_eq!(rt; queue.put(value), Ok(()), "there is room for {value}");
    }
    assert_eq!(rt; queue.put(4), Err(4), "the queue is full");
    assert_eq!(rt; queue.take(), Some(1));
    assert_eq!(rt; queue.put(5), Ok(()), "there is room again");
    for value in [2u32, 3, 5] {
        assert_eq!(rt; queue.take(), Some(value));
    }
    assert_eq!(rt; queue.take(), None, "none is left");
    Ok(())
}

/// How many values each thread puts.
const EACH: u32 = 100;

/// Puts some values in a row, and answers how many were put.
fn put_some(queue: &SharedQueue<u32>, first: u32) -> u32 {
    let mut count = 0u32;
    for value in 0..EACH {
        if is_put(queue, first.saturating_add(value)) {
            count = count.saturating_add(1);
        }
    }
    count
}

/// Whether some try puts the value: one may meet others each time it looks.
fn is_put(queue: &SharedQueue<u32>, value: u32) -> bool {
    for _ in 0..1_000 {
        if queue.put(value).is_ok() {
            return true;
        }
    }
    false
}

/// Takes values until some tries find none, and answers how many they are and their sum.
fn take_all(queue: &SharedQueue<u32>, tries: u32) -> (u32, u32) {
    let mut count = 0u32;
    let mut sum = 0u32;
    for _ in 0..tries {
        if let Some(value) = queue.take() {
            count = count.saturating_add(1);
            sum = sum.saturating_add(value);
        }
    }
    (count, sum)
}

#[test]
fn each_value_of_several_threads_comes_out_once(rt: HostRuntime) -> Result<(), Fail> {
    let alloc = rt.alloc();
    let queue = SharedQueue::new(alloc, 512)?;
    let shared = &queue;
    let put = thread::map_indices(
        &rt,
        alloc,
        3,
        &|n: usize| -> u32 { put_some(shared, n as u32 * 1_000) },
    )?;
    assert_eq!(rt;
        put.as_slice(),
        [EACH, EACH, EACH].as_slice(),
        "there is room for all"
    );
    // 0 to 99, 1,000 to 1,099 and 2,000 to 2,099
    assert_eq!(rt; take_all(shared, 400), (300, 314_850));
    assert_eq!(rt; queue.take(), None, "none is left");
    Ok(())
}

#[test]
fn values_are_taken_while_others_are_put(rt: HostRuntime) -> Result<(), Fail> {
    let queue = SharedQueue::new(rt.alloc(), 128)?;
    let shared = &queue;
    let (put, early) = thread::join(&rt, || put_some(shared, 1_000), || take_all(shared, 10_000));
    let late = take_all(shared, 200);
    assert_eq!(rt;
        early.0.saturating_add(late.0),
        put,
        "each that was put was taken"
    );
    if put == EACH {
        // 1,000 to 1,099
        assert_eq!(rt; early.1.saturating_add(late.1), 104_950);
    }
    Ok(())
}
