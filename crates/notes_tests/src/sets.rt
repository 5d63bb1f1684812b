use notes::set::NoteSet;

#[test]
fn a_set_holds_what_was_added(rt: HostRuntime) {
    let set = NoteSet::empty().with(0).with(31).with(5).with(5);
    assert_eq!(rt; set.count(), 3);
    assert_eq!(rt; set.lowest(), Some(0));
    assert!(rt; set.contains(31) && set.contains(5) && !set.contains(4));
    assert_eq!(rt; set.without(NoteSet::empty().with(0)).lowest(), Some(5));
}

#[test]
fn no_note_is_above_31(rt: HostRuntime) {
    let full = NoteSet::from_bits(4294967295);
    assert_eq!(rt; full.count(), 32);
    assert!(rt; !full.contains(32) && !full.contains(18446744073709551615));
    assert!(rt; NoteSet::empty().with(32).is_empty());
}

#[test]
fn the_empty_set_has_no_lowest_note(rt: HostRuntime) {
    assert_eq!(rt; NoteSet::empty().lowest(), None);
    assert_eq!(rt; NoteSet::from_bits(2147483648).lowest(), Some(31));
    assert_eq!(rt;
        NoteSet::from_bits(6).union(NoteSet::from_bits(9)).to_bits(),
        15
    );
}
