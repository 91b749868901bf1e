//! Holds: for whom else than the committed root a page stays.
ghost use Rattle.std.specs.Prelude.{◌≡◌, true, false, IfSome, IfNone};
ghost use Rattle.page_store.specs.Holds.{none as none_of, needed_by, with_need, any as any_of};

/// Which of the four holds that a store can have at a time.
#[derive(Clone, Copy, Debug, PartialEq, Eq)]
pub enum HoldPlace {
    First,
    Second,
    Third,
    Fourth,
}

/// A hold on the root that was the committed one when it was taken. It is given back by `let_go`, and cannot be dropped.
pub struct Hold {
    pub(crate) place: HoldPlace,
}

impl Hold {
    /// Which hold it is.
    pub fn place(&self) -> HoldPlace
        ensures { result ≡ self.now.place }
    {
        self.place
    }
}

/// Which of the four holds: those that need a page, or those that are taken.
#[derive(Clone, Copy, Debug, PartialEq, Eq)]
pub struct Holders {
    pub first: bool,
    pub second: bool,
    pub third: bool,
    pub fourth: bool,
}

impl Holders {
    /// None of them.
    pub fn none() -> Holders
        ensures { result ≡ none_of }
    {
        Holders {
            first: false,
            second: false,
            third: false,
            fourth: false,
        }
    }

    /// With this one among them, or without it.
    pub fn with(self, place: HoldPlace, needs: bool) -> Holders
        ensures { result ≡ with_need self place needs }
    {
        let mut holders = self;
        match place {
            HoldPlace::First => holders.first = needs,
            HoldPlace::Second => holders.second = needs,
            HoldPlace::Third => holders.third = needs,
            HoldPlace::Fourth => holders.fourth = needs,
        }
        holders
    }

    /// Whether there is one.
    pub fn any(self) -> bool
        ensures { result ≡ any_of self }
    {
        self.first || self.second || self.third || self.fourth
    }

    /// One that is not among them.
    pub fn absent(self) -> Option<HoldPlace>
        ensures some { IfSome result (λ place. needed_by self place ≡ false) }
        ensures none { IfNone result ((place : HoldPlace) → needed_by self place ≡ true) }
    {
        if !self.first {
            return Some(HoldPlace::First);
        }
        if !self.second {
            return Some(HoldPlace::Second);
        }
        if !self.third {
            return Some(HoldPlace::Third);
        }
        if !self.fourth {
            return Some(HoldPlace::Fourth);
        }
        None
    }
}
