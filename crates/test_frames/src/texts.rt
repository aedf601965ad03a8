//! Texts as keys. The numbers are those of Python's hashlib.
use crate::frames::{is_asking, is_saying};
use lz_proto::Request;
use lz_resp::{Form, Frames, Naming, Secret};
use lz_slot::Key;
use std::collections::VecDeque;
use std::test::Fail;

#[test]
fn names_and_members_are_bytes(rt: HostRuntime) -> Result<(), Fail> {
    let text = b"*3\r\n$4\r\nSADD\r\n$5\r\n\xc3\xa9t\xc3\xa9\r\n$2\r\n\xff\x80\r\n\
sadd myset element:000000412558\r\nsadd ab c\r\nsadd a bc\r\n*3\r\n$4\r\nSADD\r\n$4\r\nseen\r\n$2\r\n\r\n\r\n";
    let numbers = [
        270_598_408_865_508_056,
        202_535_818_458_584_909,
        957_243_908_281_160_298,
        828_760_502_949_312_972,
        154_794_294_414_118_701,
    ];
    let mut frames = Frames::new(rt.alloc(), Naming::Texts(None));
    let mut items = VecDeque::new(rt.alloc());
    frames.feed_into(text, &mut items)?;
    for number in numbers {
        let item = items.pop_front().ok_or("an item")?;
        let key = Key::new(number).ok_or("a key")?;
        assert!(rt; is_asking(&item, Form::Added, [Request::Add(key)].as_slice()));
    }
    assert!(rt; items.is_empty());
    Ok(())
}

#[test]
fn the_longest_words_are_a_key(rt: HostRuntime) -> Result<(), Fail> {
    let mut frames = Frames::new(rt.alloc(), Naming::Texts(None));
    let mut items = VecDeque::new(rt.alloc());
    frames.feed_into(b"*3\r\n$9\r\nSISMEMBER\r\n$512\r\n", &mut items)?;
    frames.feed_into([b'n'; 512].as_slice(), &mut items)?;
    frames.feed_into(b"\r\n$512\r\n", &mut items)?;
    frames.feed_into([b'm'; 512].as_slice(), &mut items)?;
    frames.feed_into(b"\r\n", &mut items)?;
    let item = items.pop_front().ok_or("an item")?;
    let key = Key::new(285_130_646_804_482_561).ok_or("a key")?;
    assert!(rt; is_asking(&item, Form::Found, [Request::Has(key)].as_slice()));
    Ok(())
}

#[test]
fn keys_of_no_set_have_the_name_of_no_bytes(rt: HostRuntime) -> Result<(), Fail> {
    let mut frames = Frames::new(rt.alloc(), Naming::Texts(None));
    let mut items = VecDeque::new(rt.alloc());
    frames.feed_into(b"select 9\r\nexists a 5\r\n", &mut items)?;
    frames.feed_into(b"*3\r\n$5\r\nSETNX\r\n$0\r\n\r\n$1\r\n1\r\n", &mut items)?;
    let selected = items.pop_front().ok_or("an item")?;
    let refused =
        b"-ERR SELECT: with --text there is database 0 alone; give each application's sets names of their own\r\n";
    assert!(rt; is_saying(&selected, refused.as_slice()));
    let found = items.pop_front().ok_or("an item")?;
    let first = Key::new(564_030_590_739_040_361).ok_or("a key")?;
    let second = Key::new(97_039_488_880_705_532).ok_or("a key")?;
    let asked = [Request::Has(first), Request::Has(second)];
    assert!(rt; is_asking(&found, Form::Found, asked.as_slice()));
    let stored = items.pop_front().ok_or("an item")?;
    let empty = Key::new(634_128_529_936_681_850).ok_or("a key")?;
    assert!(rt; is_asking(&stored, Form::Added, [Request::Add(empty)].as_slice()));
    Ok(())
}

#[test]
fn a_secret_comes_before_each_text(rt: HostRuntime) -> Result<(), Fail> {
    let secret = Secret::new(b"0123456789abcdef").ok_or("a secret")?;
    let kept: &'static Secret = Box::leak(Box::new(rt.alloc(), secret)?);
    let mut frames = Frames::new(rt.alloc(), Naming::Texts(Some(kept)));
    let mut items = VecDeque::new(rt.alloc());
    frames.feed_into(
        b"sismember s m\r\n*2\r\n$6\r\nEXISTS\r\n$0\r\n\r\n",
        &mut items,
    )?;
    for number in [237_516_734_950_140_737, 662_356_793_739_318_433] {
        let item = items.pop_front().ok_or("an item")?;
        let key = Key::new(number).ok_or("a key")?;
        assert!(rt; is_asking(&item, Form::Found, [Request::Has(key)].as_slice()));
    }
    Ok(())
}

#[test]
fn a_secret_is_a_block_at_most(rt: HostRuntime) -> Result<(), Fail> {
    let mut bytes = [7; 65];
    assert!(rt; Secret::new(&bytes).is_none());
    assert!(rt; Secret::new(&bytes[..15]).is_none());
    let secret = Secret::new(&bytes[..64]).ok_or("a secret")?;
    assert_eq!(rt; secret.number(), 7_853_973_437_245_374_273);
    bytes[63] = 0;
    assert!(rt; Secret::new(&bytes[..64]).is_none());
    Ok(())
}
