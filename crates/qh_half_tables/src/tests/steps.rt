//! A caller that counts, and one that has no ledger of its own.
ghost use Rattle.std.specs.Prelude.{◌≡◌, ◌<◌, ◌+◌};

use qh_half::Steps;
use std::marker::Brand;
use std::sync::ledger::{Blank, Ledger};

fn twice<L: Ledger>(steps: &mut Steps<L>)
    ensures { steps.new ≡ steps.old + 2 }
{
    steps.tick();
    steps.tick();
}

fn counted<L: Ledger>(blank: Blank)
    requires name { blank.name ≡ L.name }
    requires parts { blank.parts ≡ L.parts }
    requires some { 0 < blank.parts }
{
    let mut steps = Steps::<L>::new(blank);
    twice(&mut steps);
}

fn uncounted() {
    counted::<Brand>(Blank::new(1));
}

#[test]
fn counts(_rt: HostRuntime) {
    uncounted();
}
