use notes::label::Label;
use notes::ranking::rank;
use notes::wear::Wear;
use std::array;
use std::test::Fail;

const UNSET: usize = 99;

fn wear(block: u32, erases: u32) -> Wear {
    Wear { block, erases }
}

#[test]
fn equal_notes_stand_by_number(rt: HostRuntime) -> Result<(), Fail> {
    let mut places = [UNSET; 32];
    rank(&[wear(4, 4), wear(4, 4), wear(4, 4)], &mut places)?;
    assert!(rt; places[0] == 0 && places[1] == 1 && places[2] == 2);
    assert_eq!(rt; places[3], UNSET);
    Ok(())
}

#[test]
fn no_note_and_one_note(rt: HostRuntime) -> Result<(), Fail> {
    let mut places = [UNSET; 32];
    let none: [Wear; 0] = [];
    rank(&none, &mut places)?;
    assert_eq!(rt; places[0], UNSET);
    rank(&[wear(9, 1)], &mut places)?;
    assert!(rt; places[0] == 0 && places[1] == UNSET);
    Ok(())
}

#[test]
fn thirty_two_notes_downwards(rt: HostRuntime) -> Result<(), Fail> {
    let notes: [Wear; 32] = array::from_fn(|i| wear(1000 - i as u32, 0));
    let mut places = [UNSET; 32];
    rank(&notes, &mut places)?;
    assert!(rt; places[0] == 31 && places[15] == 16 && places[31] == 0);
    Ok(())
}

#[test]
fn thirty_three_notes_are_refused(rt: HostRuntime) {
    let notes = [wear(1, 1); 33];
    let mut places = [UNSET; 32];
    assert!(rt; rank(&notes, &mut places).is_err());
    assert!(rt; places[0] == UNSET && places[31] == UNSET);
}

#[test]
fn notes_at_the_ends_of_32_bits(rt: HostRuntime) -> Result<(), Fail> {
    let top = 4294967295;
    let mut places = [UNSET; 32];
    rank(
        &[wear(top, top), wear(0, top), wear(top, 0), wear(0, 0)],
        &mut places,
    )?;
    assert!(rt; places[0] == 3 && places[1] == 1 && places[2] == 2 && places[3] == 0);
    Ok(())
}

#[test]
fn a_beginning_stands_before_the_longer_label(rt: HostRuntime) -> Result<(), Fail> {
    let abc = Label::new(b"ABC", 0).ok_or("a label")?;
    let ab = Label::new(b"AB", 4).ok_or("a label")?;
    let a = Label::new(b"A", 7).ok_or("a label")?;
    let b = Label::new(b"B", 9).ok_or("a label")?;
    let mut places = [UNSET; 32];
    rank(&[abc, b, ab, a], &mut places)?;
    assert!(rt; places[0] == 2 && places[1] == 3 && places[2] == 1 && places[3] == 0);
    Ok(())
}
