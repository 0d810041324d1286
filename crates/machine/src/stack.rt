//! The stack.
ghost use Rattle.std.specs.Prelude.{◌≡◌, ◌<◌, [], ◌∷◌, length, IfOk};
ghost use Rattle.machine.specs.Stack.{gives, popped, pushed, dropped_by};

use crate::ending::Inapplicable;
use crate::value::Value;
use std::marker::Model;

/// At most 8 values.
#[derive(Drop)]
pub struct Stack<'a> {
    // Behind a reference: beside an array that is indexed, the height would stay in memory, and be read and written at each step.
    items: &'a mut [Value; 8],
    height: usize,
}

impl<'a> Model for Stack<'a> {
    ghost use Rattle.std.specs.Prelude.{◌≡◌, ◌≤◌, List, length};
    ghost use Rattle.machine.specs.declared.value.Value.{Value as Item};
    ghost use Rattle.machine.specs.Stack.{below};

    // The top first.
    ghost Value = { List Item };

    ghost view = { λ s. below s.items.now s.height };

    ghost invariant = { λ s. (s.height ≤ 8) × (length s.items.now ≡ 8) };
}

impl<'a> Stack<'a> {
    /// An empty stack, whose values are kept in `items`.
    pub fn new(items: &'a mut [Value; 8]) -> Stack<'a>
        ensures { result ≡ [] }
    {
        Stack { items, height: 0 }
    }

    pub fn pop(&mut self) -> Result<Value, Inapplicable>
        ensures pops { gives result self.new ≡ popped self.old }
        ensures room { IfOk result (λ _. length self.new < 8) }
    {
        if self.height == 0 {
            return Err(Inapplicable);
        }
        self.height -= 1;
        Ok(self.items[self.height])
    }

    pub fn push(&mut self, value: Value) -> Result<(), Inapplicable>
        ensures { gives result self.new ≡ pushed value self.old }
    {
        if self.height == 8 {
            return Err(Inapplicable);
        }
        self.put(value);
        Ok(())
    }

    /// Puts a value where there is room for it, as where one was popped.
    pub fn put(&mut self, value: Value)
        requires { length self.old < 8 }
        ensures { self.new ≡ value ∷ self.old }
    {
        self.items[self.height] = value;
        self.height += 1;
    }

    pub fn drop_by(&mut self, count: u8) -> Result<(), Inapplicable>
        ensures { gives result self.new ≡ dropped_by count self.old }
    {
        let count = count as usize;
        if self.height < count {
            return Err(Inapplicable);
        }
        self.height -= count;
        Ok(())
    }
}
