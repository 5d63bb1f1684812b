// Each kind of note as a schedule file has it. That printing succeeds is in no contract, so these tell.
use notes::label::Label;
use notes::wear::Wear;
use std::test::Fail;

#[test]
fn a_wear_note_prints_as_its_block_and_its_count(rt: HostRuntime) -> Result<(), Fail> {
    let worn = Wear {
        block: 7,
        erases: 120,
    };
    assert_eq!(rt; format!(in rt.alloc(); "{worn}")?.as_str(), "7 120");
    let ends = Wear {
        block: 0,
        erases: 4294967295,
    };
    assert_eq!(rt; format!(in rt.alloc(); "{ends}")?.as_str(), "0 4294967295");
    Ok(())
}

#[test]
fn a_label_prints_as_its_bytes(rt: HostRuntime) -> Result<(), Fail> {
    let label = Label::new(b" AB12 ~ ", 40).ok_or("a label of eight bytes")?;
    assert_eq!(rt; format!(in rt.alloc(); "{label}")?.as_str(), " AB12 ~ ");
    Ok(())
}
