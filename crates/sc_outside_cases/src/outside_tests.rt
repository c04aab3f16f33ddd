use sc_edge::*;
use sc_value::{AppId, List, Text};
use std::alloc::Global;
use std::fmt::Display;
use std::test::Fail;
use std::{fs, io};

// What a read gave: the bytes, or the name of the other answer.
fn told(shelved: &Shelved) -> &[u8] {
    match shelved {
        Shelved::Got(text) => text.as_bytes(),
        Shelved::Long => b"Long",
        Shelved::Failed => b"Failed",
        Shelved::NoMemory => b"NoMemory",
    }
}

pub(crate) fn numbers(alloc: Global, number: u64) -> Result<List<u64>, Fail> {
    let mut list = List::new(alloc);
    list.push(number)?;
    Ok(list)
}

#[test]
fn shelf_in_memory(rt: HostRuntime) -> Result<(), Fail> {
    let alloc = rt.alloc();
    let mut items = List::new(alloc);
    let _ = items.push(Item {
        name: Text::from_slice(alloc, b"a")?,
        bytes: Text::from_slice(alloc, b"abc")?,
    });
    let mut shelf = MemShelf::new(alloc, items, numbers(alloc, 3)?);
    let a = Text::from_slice(alloc, b"a")?;
    let b = Text::from_slice(alloc, b"b")?;
    assert_eq!(rt; told(&shelf.read(&a, 3)), b"abc".as_slice());
    assert_eq!(rt; told(&shelf.read(&a, 2)), b"Long".as_slice());
    assert_eq!(rt; shelf.faults(), 0);
    assert_eq!(rt; told(&shelf.read(&a, 3)), b"Failed".as_slice());
    assert_eq!(rt; shelf.faults(), 1);
    assert_eq!(rt; told(&shelf.read(&b, 3)), b"Failed".as_slice());
    assert_eq!(rt; shelf.faults(), 2);
    assert_eq!(rt; told(&shelf.read(&a, 4)), b"abc".as_slice());
    Ok(())
}

#[test]
fn sink_in_memory(rt: HostRuntime) -> Result<(), Fail> {
    let alloc = rt.alloc();
    let mut sink = MemSink::new(alloc, 5, numbers(alloc, 3)?)?.with_most(2);
    assert_eq!(rt; put_all(&mut sink, b"abcd"), Ok(()));
    assert_eq!(rt; sink.bytes(), b"abcd".as_slice());
    assert_eq!(rt;
        put_all(&mut sink, b"e"),
        Err(Failed),
        "the third put is to fail"
    );
    assert_eq!(rt; sink.bytes(), b"abcd".as_slice());
    assert_eq!(rt;
        put_all(&mut sink, b"ef"),
        Err(Failed),
        "one byte finds no room"
    );
    assert_eq!(rt; sink.bytes(), b"abcde".as_slice());
    assert_eq!(rt; sink.put(b""), Ok(0));
    assert_eq!(rt; sink.faults(), 2);
    Ok(())
}

#[test]
fn shelf_of_files(rt: HostRuntime) -> Result<(), Fail> {
    let alloc = rt.alloc();
    let path = "sc_edge_shelf_test";
    let bytes = [7u8; 10000];
    fs::write(&rt, path, bytes.as_slice())?;
    let name = Text::from_slice(alloc, path.as_bytes())?;
    let mut shelf = FileShelf::new(&rt, alloc);
    let whole = shelf.read(&name, 10000);
    let long = shelf.read(&name, 9999);
    fs::remove_file(&rt, path)?;
    assert_eq!(rt; told(&whole), bytes.as_slice());
    assert_eq!(rt; told(&long), b"Long".as_slice());
    assert_eq!(rt; shelf.faults(), 0);
    assert_eq!(rt;
        told(&shelf.read(&name, 9)),
        b"Failed".as_slice(),
        "it is gone"
    );
    let no_text = Text::from_slice(alloc, b"\xff")?;
    assert_eq!(rt; told(&shelf.read(&no_text, 9)), b"Failed".as_slice());
    assert_eq!(rt; shelf.faults(), 2);
    Ok(())
}

// An output that writes at most so many bytes at once.
struct Narrow(usize);

impl Print for Narrow {
    fn print<D: Display + Drop>(&self, _value: D) -> io::Result<()> {
        Ok(())
    }

    fn println<D: Display + Drop>(&self, _value: D) -> io::Result<()> {
        Ok(())
    }

    fn write_all(&self, _bytes: &[u8]) -> io::Result<()> {
        Ok(())
    }

    fn write_some(&self, bytes: &[u8]) -> io::Result<usize> {
        Ok(bytes.len().min(self.0))
    }
}

#[test]
fn sink_of_output(rt: HostRuntime) {
    let mut sink = OutSink::new(&rt);
    assert_eq!(rt; sink.put(b""), Ok(0));
    assert_eq!(rt; sink.faults(), 0);
    let mut sink = OutSink::new(&Narrow(2));
    assert_eq!(rt; sink.put(b"abc"), Ok(2));
    assert_eq!(rt; put_all(&mut sink, b"abcde"), Ok(()));
    let mut sink = OutSink::new(&Narrow(0));
    assert_eq!(rt;
        sink.put(b"abc"),
        Err(Failed),
        "no byte of some was written"
    );
    assert_eq!(rt; sink.faults(), 1);
}

#[test]
fn clock_of_list(rt: HostRuntime) -> Result<(), Fail> {
    let alloc = rt.alloc();
    let mut moments = numbers(alloc, 5)?;
    moments.push(3)?;
    let Some(mut clock) = ListClock::new(moments) else {
        return Err(Fail::new("two early moments"));
    };
    assert_eq!(rt; clock.now(), 5);
    assert_eq!(rt; clock.now(), 3);
    assert_eq!(rt; clock.now(), 3, "the last moment goes on");
    assert_eq!(rt; clock.asked(), 3);
    assert!(rt; ListClock::new(numbers(alloc, (1 << 63) + 1)?).is_none());
    Ok(())
}

#[test]
fn orders_of_list(rt: HostRuntime) -> Result<(), Fail> {
    let alloc = rt.alloc();
    let order = Order {
        epoch: 1,
        app: AppId { host: 0, serial: 2 },
    };
    let mut list = List::new(alloc);
    list.push(None)?;
    list.push(Some(order))?;
    let mut orders = ListOrders::new(list);
    assert_eq!(rt; orders.next(), None);
    assert_eq!(rt; orders.next(), Some(order));
    assert_eq!(rt; orders.next(), None);
    assert_eq!(rt; orders.asked(), 3);
    Ok(())
}

// Tells a notice of an epoch of one step, whose parts are the numbers 6 and 7.
fn tell<N: Notice<u64>>(notice: &mut N, alloc: Global) {
    notice.step(1);
    notice.part(6);
    notice.epoch(0, 4, 7);
    notice.list(Listing {
        epoch: 1,
        steps: 0,
        live: List::new(alloc),
        waiting: 0,
    });
}

#[test]
fn notice_that_keeps(rt: HostRuntime) {
    let alloc = rt.alloc();
    let mut notice = KeepNotice::new(alloc);
    tell(&mut notice, alloc);
    tell(&mut NoNotice, alloc);
    OpenGate.pass(AppId { host: 0, serial: 1 }, 1);
    let Some(
        [
            Noted::Step(1),
            Noted::Part(6),
            Noted::Epoch(0, 4, 7),
            Noted::List(listing),
        ],
    ) = notice.noted()
    else {
        panic!(rt; "four notes");
    };
    assert_eq!(rt; listing.epoch, 1);
}
