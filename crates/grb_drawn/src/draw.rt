//! What tests draw by chance, the same in each run.
ghost use Rattle.std.specs.Prelude.{◌<◌};

use grb_core::{BinaryOp, Descriptor, Diagonal, Domain, Function, Monoid, Test, UnaryOp, Value};

/// Numbers that look drawn by chance (Knuth's linear congruential generator).
#[derive(Drop)]
pub struct Draw {
    /// What it begins with, and then what the last draw left.
    pub state: u64,
}

/// A number as a value of the domain. Of truth values 0 is false.
pub fn value_of(domain: Domain, n: u64) -> Value {
    match domain {
        Domain::Bool => Value::Bool(n != 0),
        Domain::Uint64 => Value::Uint64(n),
    }
}

/// One of the four monoids of the domain.
fn monoid_of(domain: Domain, n: u64) -> Monoid {
    match (domain, n % 4) {
        (Domain::Bool, 0) => Monoid::Lor,
        (Domain::Bool, 1) => Monoid::Land,
        (Domain::Bool, 2) => Monoid::Lxor,
        (Domain::Bool, _) => Monoid::Lxnor,
        (Domain::Uint64, 0) => Monoid::Plus,
        (Domain::Uint64, 1) => Monoid::Times,
        (Domain::Uint64, 2) => Monoid::Min,
        (Domain::Uint64, _) => Monoid::Max,
    }
}

/// One of the operators of the domain, which are 6 of truth values and 7 of numbers.
fn op_of(domain: Domain, n: u64) -> BinaryOp {
    match (domain, n % 6, n % 7) {
        (Domain::Bool, 4, _) => BinaryOp::FirstBool,
        (Domain::Bool, 5, _) => BinaryOp::SecondBool,
        (Domain::Bool, k, _) => monoid_of(domain, k).op(),
        (Domain::Uint64, _, 4) => BinaryOp::Minus,
        (Domain::Uint64, _, 5) => BinaryOp::First,
        (Domain::Uint64, _, 6) => BinaryOp::Second,
        (Domain::Uint64, _, k) => monoid_of(domain, k).op(),
    }
}

impl Draw {
    /// The next number below `n`.
    pub fn below(&mut self, n: u64) -> u64
        requires { 0 < n }
        ensures { result < n }
    {
        self.state = self
            .state
            .wrapping_mul(6_364_136_223_846_793_005)
            .wrapping_add(1_442_695_040_888_963_407);
        (self.state >> 33) % n
    }

    /// True as often as false.
    pub fn truth(&mut self) -> bool {
        self.below(2) == 1
    }

    /// A domain, each as often as the other.
    pub fn domain(&mut self) -> Domain {
        if self.truth() {
            Domain::Bool
        } else {
            Domain::Uint64
        }
    }

    /// A number that stands for a value of the domain; among those of 64 bits are small ones and the two largest.
    pub fn number(&mut self, domain: Domain) -> u64 {
        match domain {
            Domain::Bool => self.below(2),
            Domain::Uint64 => self.below(6).wrapping_sub(2),
        }
    }

    /// A monoid of the domain.
    pub fn monoid(&mut self, domain: Domain) -> Monoid {
        monoid_of(domain, self.below(4))
    }

    /// An operator of the domain.
    pub fn op(&mut self, domain: Domain) -> BinaryOp {
        op_of(domain, self.below(42))
    }

    /// An operator of the domain, or none.
    pub fn accum(&mut self, domain: Domain) -> Option<BinaryOp> {
        if self.truth() {
            return None;
        }
        Some(self.op(domain))
    }

    /// A descriptor, each part of which is set as often as not.
    pub fn descriptor(&mut self) -> Descriptor {
        Descriptor {
            structure: self.truth(),
            comp: self.truth(),
            replace: self.truth(),
            tran: self.truth(),
            tran1: self.truth(),
        }
    }

    /// A function of a value of the domain.
    pub fn function(&mut self, domain: Domain) -> Function {
        let op = self.op(domain);
        let x = value_of(domain, self.number(domain));
        match (self.below(5), domain) {
            (0, _) => Function::First(x, op),
            (1, _) => Function::Second(op, x),
            (2, Domain::Uint64) => Function::Unary(UnaryOp::Identity),
            (3, Domain::Uint64) => Function::Unary(UnaryOp::Ainv),
            (_, Domain::Uint64) => Function::Unary(UnaryOp::Bnot),
            (2, Domain::Bool) => Function::Unary(UnaryOp::IdentityBool),
            (_, Domain::Bool) => Function::Unary(UnaryOp::Lnot),
        }
    }

    /// A diagonal that is at most 3 off the main one.
    pub fn diagonal(&mut self) -> Diagonal {
        let n = self.below(4) as u32;
        if self.truth() {
            return Diagonal::Above(n);
        }
        Diagonal::Below(n)
    }

    /// A test of an entry whose value is of the domain.
    pub fn test(&mut self, domain: Domain) -> Test {
        let d = self.diagonal();
        let n = self.below(4);
        let x = value_of(domain, self.number(domain));
        match self.below(14) {
            0 => Test::Tril(d),
            1 => Test::Triu(d),
            2 => Test::Diag(d),
            3 => Test::Offdiag(d),
            4 => Test::RowLe(n),
            5 => Test::RowGt(n),
            6 => Test::ColLe(n),
            7 => Test::ColGt(n),
            8 => Test::ValueEq(x),
            9 => Test::ValueNe(x),
            10 => Test::ValueLt(x),
            11 => Test::ValueLe(x),
            12 => Test::ValueGt(x),
            _ => Test::ValueGe(x),
        }
    }
}
