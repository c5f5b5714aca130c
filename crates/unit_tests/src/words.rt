//! Words of memory, numbers of threads and faults, bytes of fields, names, and the words and numbers of a text.
use guest_words::{
    ByThread, FaultKind, Name, NameError, ReadyList, Tid, Word, cut, decimal_number, first_number,
    le16, le32, push_decimal, put_le32, wide_decimal_number, words_over,
};
use std::test::Fail;

#[test]
fn ranges_of_words(rt: HostRuntime) {
    for (first, bytes, word, count) in [
        (0u32, 1u32, 0u32, 1u32),
        (3, 1, 0, 1),
        (1030, 4, 257, 2),
        (4, 8, 1, 2),
        (0xFFFF_FFFF, 1, 0x3FFF_FFFF, 1),
    ] {
        assert!(rt; bytes >= 1);
        assert!(rt; first as u64 + bytes as u64 <= 1 << 32);
        let (found, found_count) = words_over(first, bytes);
        assert_eq!(rt; found.number(), word, "{bytes} bytes at {first}");
        assert_eq!(rt; found_count, count, "{bytes} bytes at {first}");
    }
    assert_eq!(rt; Word::of(7).number(), 1);
}

#[test]
fn threads_and_faults_have_numbers(rt: HostRuntime) {
    for (number, is_thread) in [(0u32, false), (1, true), (4194303, true), (4194304, false)] {
        assert_eq!(rt;
            Tid::new(number).map(|tid| tid.number()),
            if is_thread { Some(number) } else { None },
            "thread {number}"
        );
    }
    assert_eq!(rt; Tid::FIRST.number(), 1);
    assert_eq!(rt; FaultKind::Illegal as u8, 1);
    assert_eq!(rt; FaultKind::Break as u8, 7);
}

#[test]
fn fields_have_their_lowest_byte_first(rt: HostRuntime) {
    let mut bytes = [1u8, 2, 3, 4, 5];
    assert_eq!(rt; le16(&bytes, 1), 0x0302);
    assert_eq!(rt; le32(&bytes, 1), 0x0504_0302);
    put_le32(&mut bytes, 0, 0x0A0B_0C0D);
    assert_eq!(rt; bytes.as_slice(), [0x0D, 0x0C, 0x0B, 0x0A, 5].as_slice());
}

#[test]
fn a_list_of_threads_keeps_their_order(rt: HostRuntime) {
    let mut ready = ReadyList::new();
    assert_eq!(rt; ready.len(), 0);
    ready.push(Tid::FIRST, false);
    ready.push(Tid::new(5).unwrap(), true);
    let copy = ready;
    ready.push(Tid::new(4194303).unwrap(), false);
    assert_eq!(rt; copy.len(), 2);
    assert_eq!(rt; ready.len(), 3);
    for (place, number, can) in [(0usize, 1u32, false), (1, 5, true), (2, 4194303, false)] {
        assert!(rt; place < ready.len());
        assert_eq!(rt;
            ready.at(place),
            (Tid::new(number).unwrap(), can),
            "place {place}"
        );
    }
}

#[test]
fn a_name_is_visible_bytes_and_no_dash(rt: HostRuntime) -> Result<(), Fail> {
    let alloc = rt.alloc();
    let start = Name::new(alloc, b"_start")?;
    assert_eq!(rt; start.copy(alloc)?.bytes(), b"_start".as_slice());
    for bad in [b"-".as_slice(), b"", b"a b"] {
        assert!(rt;
            matches!(Name::new(alloc, bad), Err(NameError::Bad)),
            "{bad:?}"
        );
    }
    Ok(())
}

#[test]
fn words_are_cut_and_read(rt: HostRuntime) {
    assert_eq!(rt;
        cut(b"5 20 6", b' '),
        Some((b"5".as_slice(), b"20 6".as_slice()))
    );
    assert_eq!(rt; cut(b"520", b' '), None);
    for (word, number) in [
        (b"0".as_slice(), Some(0u64)),
        (b"18446744073709551615", Some(u64::MAX)),
        (b"18446744073709551616", None),
        (b"007", None),
        (b"+7", None),
        (b"", None),
    ] {
        assert_eq!(rt; decimal_number(word), number, "{word:?}");
    }
    assert_eq!(rt; wide_decimal_number(b"18446744073709551616"), Some(1 << 64));
}

#[test]
fn numbers_are_read_before_a_space_and_written(rt: HostRuntime) -> Result<(), Fail> {
    for (words, found) in [
        (b"12 x y".as_slice(), Some((12u64, b"x y".as_slice()))),
        (b"0 ", Some((0, b""))),
        (b"12", None),
        (b"012 x", None),
    ] {
        assert_eq!(rt; first_number(words), found, "{words:?}");
    }
    let mut text = Vec::from_slice(rt.alloc(), b"n ")?;
    push_decimal(&mut text, u128::MAX)?;
    assert_eq!(rt;
        text.as_slice(),
        b"n 340282366920938463463374607431768211455".as_slice()
    );
    Ok(())
}

// Values are found, written and taken out by the numbers of their threads.
#[test]
fn a_table_is_read_by_thread(rt: HostRuntime) -> Result<(), Fail> {
    let (second, third) = (Tid::new(2).unwrap(), Tid::new(3).unwrap());
    let mut table = ByThread::new(rt.alloc());
    table.reserve(1)?;
    table.insert(Tid::FIRST, 10u32)?;
    table.insert(third, 30)?;
    assert_eq!(rt; table.get(second), None);
    if let Some(value) = table.get_mut(third) {
        *value = 31;
    }
    assert_eq!(rt; table.get(third), Some(&31));
    assert_eq!(rt; table.list().len(), 2);
    table.remove(Tid::FIRST);
    assert_eq!(rt; table.get(Tid::FIRST), None);
    assert_eq!(rt; table.len(), 1);
    table.clear();
    assert_eq!(rt; table.len(), 0);
    Ok(())
}
