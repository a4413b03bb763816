//! Why a turn is refused: numbers and texts.
use cal_kthread::TurnFault;
use std::alloc::{AllocError, Global};
use std::test::Fail;

/// Whether the fault has this number and this text.
fn is(alloc: Global, fault: TurnFault, number: u8, text: &str) -> Result<bool, AllocError> {
    let said = format!(in alloc; "{fault}")?;
    Ok(fault as u8 == number && said.as_str() == text)
}

#[test]
fn fault_numbers_and_texts(rt: HostRuntime) -> Result<(), Fail> {
    assert!(rt; is(rt.alloc(), TurnFault::Memory, 1, "out of memory")?);
    assert!(rt; is(rt.alloc(), TurnFault::JournalFull, 2, "the journal is full")?);
    Ok(())
}
