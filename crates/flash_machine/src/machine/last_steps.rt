ghost use Rattle.std.specs.Prelude.{◌≡◌, ◌<◌, [], ◌∷◌, ◌++◌, Some, IsTrue, OnOk, List};
ghost use Rattle.std.specs.Prelude.{nat_eq};
ghost use Rattle.std.specs.HashMap as hash;
ghost use Rattle.std.specs.HashMap.{spare};
ghost use Rattle.flash_entry.specs.declared.entry.Entry.{Entry};
ghost use Rattle.flash_machine.specs.NewSteps.{step_id, is_new_step};
ghost use Rattle.flash_machine.specs.Followed.{FollowsSteps, reaches};

use flash_names::Id;
use std::alloc::{AllocError, Global};
use std::collections::HashMap;

// The number of the last step of each pass.
#[derive(Drop)]
pub struct LastSteps {
    of_pass: HashMap<u32, u64>,
}

impl LastSteps {
    pub fn new(alloc: Global) -> LastSteps
        ensures { FollowsSteps result [] }
    {
        LastSteps {
            of_pass: HashMap::new(alloc),
        }
    }

    // Rule 2.
    pub fn is_new(&self, id: Id) -> bool
        ensures { (h : List Entry) → FollowsSteps self.now h → result ≡ is_new_step h id }
    {
        id.pass > 0 && !self.has_reached(id)
    }

    // Whether the pass has made a step of this number or a greater one.
    fn has_reached(&self, id: Id) -> bool
        ensures { result ≡ reaches id.seq (hash.get nat_eq self.now.of_pass id.pass) }
    {
        match self.of_pass.get(&id.pass) {
            None => false,
            Some(last) => id.seq <= *last,
        }
    }

    // Room for the step of one pass more.
    pub fn reserve(&mut self) -> Result<(), AllocError>
        ensures same { (h : List Entry) → FollowsSteps self.old h → FollowsSteps self.new h }
        ensures room { OnOk result (0 < spare self.new.of_pass) }
    {
        self.of_pass.reserve(1)
    }

    pub fn note(&mut self, id: Id)
        requires { 0 < spare self.old.of_pass }
        ensures { (h : List Entry) (e : Entry) → FollowsSteps self.old h → step_id e ≡ Some id
            → IsTrue (is_new_step h id) → FollowsSteps self.new (h ++ e ∷ []) }
    {
        let _ = self.of_pass.insert(id.pass, id.seq);
    }
}
