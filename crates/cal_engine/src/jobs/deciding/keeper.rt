//! What keeps something of the passes that are decided.

ghost use Rattle.std.specs.Prelude.{◌≡◌, ◌<◌, ◌+◌, ◌^◌, ◌++◌, ◌∷◌, [], List, length, IfErr, OnOk};
ghost use Rattle.cal_policy.specs.declared.history.entry.PassEntry.{PassEntry as EntryOfPass};

use cal_input::RunFault;
use cal_policy::PassEntry;

/// Keeps something of the passes that signals lead to: it is handed each one as soon as that is
/// decided.
pub trait Keeper {
    /// What it keeps of these passes.
    ghost keeps: { Self → List EntryOfPass → Type 0 };

    /// Takes the next pass. The fault is `Memory`.
    fn take(&mut self, entry: PassEntry) -> Result<(), RunFault>
        ensures keeps { (h : List EntryOfPass) → length h + 1 < 2 ^ 64 → keeps self.old h →
            OnOk result (keeps self.new (h ++ entry ∷ [])) }
        ensures kind { IfErr result (λ fault. fault ≡ RunFault.Memory) };
}

/// The history itself, which grows with its passes.
impl Keeper for Vec<PassEntry> {
    ghost keeps = { λ history h. history.items ≡ h };

    fn take(&mut self, entry: PassEntry) -> Result<(), RunFault> {
        self.push(entry)?;
        Ok(())
    }
}
