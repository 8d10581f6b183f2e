// What a pass knows of itself, and what each step makes of it.
ghost use Rattle.std.specs.Prelude.{◌≡◌, ◌+◌, ◌≤◌, ◌<◌, ◌^◌, Bool};

use crate::breaker::{limit_of, which_of};
use crate::trial::Trial;
use agg_model::{Child, Limits, Which};

/// What a pass has at one breaker. Amounts are in bytes.
#[derive(Clone, Copy)]
pub struct Account {
    pub hold: u64,
    /// The sum of all amounts that were granted. It stops at 2^64 - 1.
    pub granted: u64,
    /// The number of refusals that were taken back. It stops at 2^64 - 1.
    pub trips: u64,
    /// The most that the pass had standing in the word since its ceiling was set or it was made.
    pub most: u64,
    /// The greatest total that a trial of its own was answered in that time.
    pub seen: u64,
}

/// The accounts of a pass at the four breakers.
#[derive(Clone, Copy)]
pub struct Accounts {
    pub request: Account,
    pub fielddata: Account,
    pub inflight: Account,
    pub parent: Account,
}

/// What a contract sees of a pass. The limits are here too, because what a step tells can read nothing else.
#[derive(Clone, Copy)]
pub struct View {
    pub limits: Limits,
    /// The most that the pass may have standing at a breaker, in bytes.
    pub cap: u64,
    /// The ceiling, which is the sum of all caps, in bytes.
    pub total: u64,
    pub accounts: Accounts,
    pub trial: Trial,
    /// The child of the trial. In `Rest` it means nothing.
    pub child: Child,
    /// The amount of the trial, in bytes. In `Rest` it means nothing.
    pub amount: u64,
}

impl Account {
    ghost use Rattle.breaker_words.specs.Accounts.{raised_account, tripped_account, lowered_account, noted_account, marked_account, empty_account, joined_account};

    pub(crate) fn empty() -> Account
        ensures { result ≡ empty_account }
    {
        Account {
            hold: 0,
            granted: 0,
            trips: 0,
            most: 0,
            seen: 0,
        }
    }

    pub(crate) fn raised(self, amount: u64) -> Account
        requires { self.hold + amount < 2 ^ 64 }
        ensures { result ≡ raised_account self amount }
    {
        Account {
            hold: self.hold + amount,
            granted: self.granted.saturating_add(amount),
            ..self
        }
    }

    pub(crate) fn lowered(self, amount: u64) -> Account
        requires { amount ≤ self.hold }
        ensures { result ≡ lowered_account self amount }
    {
        Account {
            hold: self.hold - amount,
            ..self
        }
    }

    pub(crate) fn tripped(self) -> Account
        ensures { result ≡ tripped_account self }
    {
        Account {
            trips: self.trips.saturating_add(1),
            ..self
        }
    }

    pub(crate) fn noted(self, amount: u64, total: u64) -> Account
        requires { self.hold + amount < 2 ^ 64 }
        ensures { result ≡ noted_account self amount total }
    {
        Account {
            most: self.most.max(self.hold + amount),
            seen: self.seen.max(total),
            ..self
        }
    }

    pub(crate) fn marked(self) -> Account
        ensures { result ≡ marked_account self }
    {
        Account {
            most: self.hold,
            seen: self.hold,
            ..self
        }
    }

    pub(crate) fn with(self, mine: bool, other: Account, yours: bool) -> Account
        requires hold { self.hold + other.hold < 2 ^ 64 }
        requires most { self.most + other.most < 2 ^ 64 }
        ensures { result ≡ joined_account mine yours self other }
    {
        let left = if mine { self.seen } else { 0 };
        let right = if yours { other.seen } else { 0 };
        Account {
            hold: self.hold + other.hold,
            granted: self.granted.saturating_add(other.granted),
            trips: self.trips.saturating_add(other.trips),
            most: self.most + other.most,
            seen: left.max(right),
        }
    }
}

impl Accounts {
    ghost use Rattle.breaker_words.specs.Accounts.{account, put, empty_accounts};

    pub(crate) fn empty() -> Accounts
        ensures { result ≡ empty_accounts }
    {
        Accounts {
            request: Account::empty(),
            fielddata: Account::empty(),
            inflight: Account::empty(),
            parent: Account::empty(),
        }
    }

    pub(crate) fn account(&self, which: Which) -> Account
        ensures { result ≡ account self.now which }
    {
        match which {
            Which::Request => self.request,
            Which::Fielddata => self.fielddata,
            Which::Inflight => self.inflight,
            Which::Parent => self.parent,
        }
    }

    pub(crate) fn put(&mut self, which: Which, account: Account)
        ensures { self.new ≡ put self.old which account }
    {
        match which {
            Which::Request => self.request = account,
            Which::Fielddata => self.fielddata = account,
            Which::Inflight => self.inflight = account,
            Which::Parent => self.parent = account,
        }
    }
}

impl View {
    ghost use Rattle.std.specs.Prelude.{nat_le};
    ghost use Rattle.agg_model.specs.declared.breaker.Which.{Which};
    ghost use Rattle.agg_model.specs.Breakers.{which_of, limit_of};
    ghost use Rattle.breaker_words.specs.Views.{view_of, hold_of, most_of};
    ghost use Rattle.breaker_words.specs.AfterStep.{after_join, after_try_child, after_take_back_child, after_try_parent, after_take_back_parent, after_give_parent, after_give_child, after_set_ceiling};

    pub(crate) fn new(limits: Limits, cap: u64, total: u64) -> View
        ensures { result ≡ view_of limits cap total }
    {
        View {
            limits,
            cap,
            total,
            accounts: Accounts::empty(),
            trial: Trial::Rest,
            child: Child::Request,
            amount: 0,
        }
    }

    pub(crate) fn set_ceiling(&mut self, value: u64)
        ensures { self.new ≡ after_set_ceiling self.old value }
    {
        self.cap = value;
        self.total = value;
        self.accounts = Accounts {
            request: self.accounts.request.marked(),
            fielddata: self.accounts.fielddata.marked(),
            inflight: self.accounts.inflight.marked(),
            parent: self.accounts.parent.marked(),
        };
    }

    /// Says whether the trial is granted, where the word has become `total`.
    pub(crate) fn try_child(&mut self, child: Child, amount: u64, total: u64) -> bool
        requires { hold_of self.old (which_of child) + amount < 2 ^ 64 }
        ensures view { self.new ≡ after_try_child self.old.limits self.old child amount total }
        ensures granted { result ≡ nat_le total (limit_of self.old.limits (which_of child)) }
    {
        let which = which_of(child);
        let granted = total <= limit_of(&self.limits, which);
        let account = self.accounts.account(which).noted(amount, total);
        self.accounts.put(which, account);
        self.trial = if granted {
            Trial::ChildGranted
        } else {
            Trial::ChildRefused
        };
        self.child = child;
        self.amount = amount;
        granted
    }

    pub(crate) fn take_back_child(&mut self)
        ensures { self.new ≡ after_take_back_child self.old }
    {
        let which = which_of(self.child);
        match self.trial {
            Trial::ChildRefused => {
                let account = self.accounts.account(which).tripped();
                self.accounts.put(which, account);
            }
            Trial::Rest
            | Trial::ChildGranted
            | Trial::ParentRefused
            | Trial::ChildReturning
            | Trial::ParentGiven => {}
        }
        self.trial = Trial::Rest;
    }

    pub(crate) fn try_parent(&mut self, total: u64) -> bool
        requires child { hold_of self.old (which_of self.old.child) + self.old.amount < 2 ^ 64 }
        requires parent { self.old.accounts.parent.hold + self.old.amount < 2 ^ 64 }
        ensures view { self.new ≡ after_try_parent self.old.limits self.old total }
        ensures granted { result ≡ nat_le total self.old.limits.parent }
    {
        let which = which_of(self.child);
        let amount = self.amount;
        let child = self.accounts.account(which).raised(amount);
        self.accounts.parent = self.accounts.parent.noted(amount, total);
        let granted = total <= self.limits.parent;
        if granted {
            self.accounts.parent = self.accounts.parent.raised(amount);
            self.accounts.put(which, child);
            self.trial = Trial::Rest;
        } else {
            self.trial = Trial::ParentRefused;
        }
        granted
    }

    pub(crate) fn take_back_parent(&mut self)
        ensures { self.new ≡ after_take_back_parent self.old }
    {
        self.accounts.parent = self.accounts.parent.tripped();
        self.trial = Trial::ChildReturning;
    }

    pub(crate) fn give_parent(&mut self, child: Child, amount: u64)
        requires { amount ≤ self.old.accounts.parent.hold }
        ensures { self.new ≡ after_give_parent self.old child amount }
    {
        self.accounts.parent = self.accounts.parent.lowered(amount);
        self.trial = Trial::ParentGiven;
        self.child = child;
        self.amount = amount;
    }

    pub(crate) fn give_child(&mut self)
        requires { self.old.amount ≤ hold_of self.old (which_of self.old.child) }
        ensures { self.new ≡ after_give_child self.old }
    {
        let which = which_of(self.child);
        let account = self.accounts.account(which).lowered(self.amount);
        self.accounts.put(which, account);
        self.trial = Trial::Rest;
    }

    pub(crate) fn with(self, other: View) -> View
        requires cap { self.cap + other.cap < 2 ^ 64 }
        requires holds { (x : Which) → hold_of self x + hold_of other x < 2 ^ 64 }
        requires mosts { (x : Which) → most_of self x + most_of other x < 2 ^ 64 }
        ensures { result ≡ after_join self other }
    {
        let mine = self.cap >= 1;
        let yours = other.cap >= 1;
        let total = if mine {
            self.total
        } else if yours {
            other.total
        } else {
            self.total
        };
        View {
            limits: self.limits,
            cap: self.cap + other.cap,
            total,
            accounts: Accounts {
                request: self
                    .accounts
                    .request
                    .with(mine, other.accounts.request, yours),
                fielddata: self
                    .accounts
                    .fielddata
                    .with(mine, other.accounts.fielddata, yours),
                inflight: self
                    .accounts
                    .inflight
                    .with(mine, other.accounts.inflight, yours),
                parent: self
                    .accounts
                    .parent
                    .with(mine, other.accounts.parent, yours),
            },
            trial: Trial::Rest,
            child: self.child,
            amount: self.amount,
        }
    }
}
