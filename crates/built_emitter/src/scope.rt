//! The locals in scope, with their registers.

ghost use Rattle.std.specs.Prelude.{◌≡◌, ◌-◌, ◌<◌, ◌≤◌, [], ◌∷◌, length, drop, OnOk, IfSome};
ghost use Rattle.built_emitter.specs.Standing.{names_of, register_at};

use resource::OutOfMemory;
use std::alloc::Global;
use std::marker::Model;
use syntax_tree::Visible;

/// The locals in scope, seen as their list, the newest first. The oldest is in register 0.
#[derive(Drop)]
pub struct Scope {
    locals: Vec<Visible>,
}

impl Model for Scope {
    ghost use Rattle.std.specs.Prelude.{List, reverse};
    ghost use Rattle.syntax_tree.specs.declared.notes.Visible.{Visible};

    ghost Value = { List Visible };

    ghost view = { λ s. reverse s.locals.items };
}

impl Scope {
    pub fn new(alloc: Global) -> Self
        ensures { result ≡ [] }
    {
        Scope {
            locals: Vec::new(alloc),
        }
    }

    /// The first free register.
    pub fn free_register(&self) -> usize
        ensures { result ≡ length (names_of self.now) }
    {
        self.locals.len()
    }

    pub fn declare(&mut self, local: Visible) -> Result<(), OutOfMemory>
        ensures { OnOk result (self.new ≡ local ∷ self.old) }
    {
        self.locals.push(local)?;
        Ok(())
    }

    /// The register of the local with that number.
    pub fn register_of(&self, local: usize) -> Option<usize>
        ensures register { result ≡ register_at self.now local }
        ensures within { IfSome result (λ r. r < length (names_of self.now)) }
    {
        let mut left = self.locals.len();
        while left > 0 {
            left -= 1;
            if self.locals[left].local == local {
                return Some(left);
            }
        }
        None
    }

    /// Forgets the newest locals, until so many are left.
    pub fn forget(&mut self, left: usize)
        requires { left ≤ length (names_of self.old) }
        ensures { self.new ≡ drop (length (names_of self.old) - left) self.old }
    {
        self.locals.truncate(left);
    }
}
