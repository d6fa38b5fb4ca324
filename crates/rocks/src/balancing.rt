// How the rocks of a set of benches compare with these.
ghost use Rattle.std.specs.Prelude.{◌≡◌, refl};
ghost use Rattle.rocks.specs.declared.balancing.Balance.{Balance};
ghost use Rattle.rocks.specs.declared.balancing.Balance.TheVariants.{Tree, OneCycle, Crowded, Unknown};
ghost use Rattle.rocks.specs.BalanceNumbers.{number_of, numbered};

use arrays::Entry;

// A tree has fewer rocks than benches, one cycle as many, a crowded set more; or the set was not looked at yet.
#[derive(Clone, Copy, PartialEq, Eq)]
pub enum Balance {
    Tree,
    OneCycle,
    Crowded,
    Unknown,
}

impl Entry for Balance {
    ghost blank = { Tree };

    fn blank() -> Self {
        Self::Tree
    }
}

// A type of entries that stand for balances: a balance itself, or its number. What is read past the end stands for a
// tree.
pub trait Standing: Entry {
    ghost balance: { Self → Balance };

    ghost entry: { Balance → Self };

    fn balance(self) -> Balance
        ensures { result ≡ balance self };

    fn entry(b: Balance) -> Self
        ensures { result ≡ entry b };

    ghost blank_is_tree: { balance Self.blank ≡ Tree };

    ghost entry_stands: { (b : Balance) → balance (entry b) ≡ b };
}

impl Standing for Balance {
    ghost balance = { λ b. b };

    ghost entry = { λ b. b };

    ghost blank_is_tree = { refl };

    ghost entry_stands = { λ b. refl };

    fn balance(self) -> Self {
        self
    }

    fn entry(b: Balance) -> Self {
        b
    }
}

impl Standing for usize {
    ghost balance = { numbered };

    ghost entry = { number_of };

    ghost blank_is_tree = { refl };

    ghost entry_stands = { elim [ Tree ↦ refl | OneCycle ↦ refl | Crowded ↦ refl | Unknown ↦ refl ] };

    fn balance(self) -> Balance {
        match self {
            1 => Balance::OneCycle,
            2 => Balance::Crowded,
            3 => Balance::Unknown,
            _ => Balance::Tree,
        }
    }

    fn entry(b: Balance) -> usize {
        match b {
            Balance::Tree => 0,
            Balance::OneCycle => 1,
            Balance::Crowded => 2,
            Balance::Unknown => 3,
        }
    }
}
