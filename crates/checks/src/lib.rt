// What is checked of a call before its document is read: answers 1 to 4.
#![tactic(auto)]

ghost use Rattle.std.specs.Prelude.{◌≡◌, length};
ghost use Rattle.table.specs.Tables.{or_zero};
ghost use Rattle.limits.specs.Refusal.{code};
ghost use Rattle.machine.specs.Read.{bad_base, first_checks};
ghost use Rattle.machine.specs.Step.{first_refusal};
ghost use Rattle.checks.specs.Checks.{lent_work};

use limits::{Limits, Refusal};

pub fn is_bad_base(base: &[u8]) -> bool
    ensures { result ≡ bad_base base.now }
{
    if base.len() == 0 {
        return false;
    }
    if Limits::IRI < base.len() {
        return true;
    }
    if !utf8::is_utf8(base) {
        return true;
    }
    !iri::is_base(base)
}

// The first of them that refuses the call.
pub fn first_check(document: &[u8], mode: u8, base: &[u8], work: &[u8]) -> Result<(), Refusal>
    ensures { code result ≡ or_zero (first_refusal (first_checks document.now mode base.now (lent_work (length work.now)))) }
{
    if Limits::DOCUMENT < document.len() {
        return Err(Refusal::DocumentLength);
    }
    if 1 < mode {
        return Err(Refusal::Mode);
    }
    if is_bad_base(base) {
        return Err(Refusal::Base);
    }
    if work.len() < Limits::WORK {
        return Err(Refusal::Work);
    }
    Ok(())
}
