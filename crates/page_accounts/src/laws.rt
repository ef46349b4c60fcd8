//! That the page server has what it is asked for: laws and no code.
ghost use Rattle.std.specs.Prelude.{◌≡◌, IfSome, List, is_some, true};
ghost use Rattle.std.specs.List.{AllByRecursion};
ghost use Rattle.sys_text.specs.declared.system.System.{System};
ghost use Rattle.sys_text.specs.Valid.{is_system};
ghost use Rattle.bus_msg.specs.declared.entry.Entry.{Entry};
ghost use Rattle.cert_sched.specs.Account.{account_after, page_in};
ghost use Rattle.cert_sched.specs.Legal.{IsLegalBy, Stands};
ghost use Rattle.cert_sched.specs.Moved.{waiting_fetches};
ghost use Rattle.page_server.specs.Account.{PagerState};
ghost use Rattle.page_accounts.specs.Answering.{IsKept, earliest};
ghost use Rattle.page_accounts.specs.Keeps.{KeepsAccounts};

/// A law and no code: in a legal log each fetch that waits is of a page that the committed account of its process has.
pub fn waiting_pages_are_kept()
    ensures kept { (system : System) (log : List Entry) → is_system system ≡ true → IsLegalBy Stands system log → AllByRecursion (λ f. is_some (page_in (account_after system log f.0).kept f.1) ≡ true) (waiting_fetches system log) }
    // So a page server that keeps the accounts of the log can answer the earliest.
    ensures can_answer { (system : System) (log : List Entry) (state : PagerState) → is_system system ≡ true → IsLegalBy Stands system log → KeepsAccounts system log state → IfSome (earliest state) (IsKept state) }
{}
