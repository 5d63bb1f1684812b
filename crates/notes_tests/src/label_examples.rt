use notes::label::Label;
use std::test::Fail;

#[test]
fn a_label_has_one_to_eight_printable_bytes(rt: HostRuntime) {
    assert!(rt; Label::new(b"", 0).is_none());
    assert!(rt; Label::new(b"123456789", 0).is_none());
    assert!(rt; Label::new(b"a\tb", 0).is_none());
    assert!(rt; Label::new(&[127], 0).is_none());
    assert!(rt; Label::new(&[32, 126], 7).is_some());
}

#[test]
fn a_label_gives_its_bytes_back_with_their_place(rt: HostRuntime) -> Result<(), Fail> {
    let label = Label::new(b" AB12 ~ ", 40).ok_or("a label of eight bytes")?;
    assert!(rt; label.bytes() == b" AB12 ~ ".as_slice());
    assert_eq!(rt; label.place(), 40);
    Ok(())
}
