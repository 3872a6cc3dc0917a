#![tactic(auto)]

ghost use Rattle.pages.specs.Pages.{AllHold, pages};

// Each page of the list holds: a theorem, and nothing to compute.
pub fn pages_hold() -> u8
    ensures { AllHold pages }
{
    0
}
