//! What a batch is to those who take it in: laws and no code.
ghost use Rattle.std.specs.Prelude.{◌≡◌, ◌≤◌, ℕ, Bool, true, false, if◌then◌else◌, All, Some, None, [], ◌∷◌};
ghost use Rattle.std.specs.List.Sorted.{IsStrictlySortedBy};
ghost use Rattle.std.specs.Map.{keys_of};
ghost use Rattle.std.specs.Ordering.{nat_cmp};
ghost use Rattle.t32_base.specs.declared.process.ClusterNo.{ClusterNo};
ghost use Rattle.t32_base.specs.Account.{Account, page_in};
ghost use Rattle.rv_mem.specs.Memory.{page_at};
ghost use Rattle.proc_state.specs.declared.process.Process.{Process};
ghost use Rattle.proc_state.specs.State.{can_take, state_of};
ghost use Rattle.bus_msg.specs.declared.entry.By.TheVariants.{Cluster};
ghost use Rattle.bus_msg.specs.declared.entry.Post.{Post};
ghost use Rattle.sync_point.specs.Due.{is_due_by};
ghost use Rattle.sync_point.specs.Batch.{batch, cut_of, is_marked, sync_post, synced, took_by};
ghost use Rattle.sync_point.specs.Laws.{EndsWithSync, HasUnmarked, pages_sent, whole_memory, with_pages};

/// A law and no code: the last post of a batch is its only `Sync`, and each before it is a page of the process at its
/// step count. Each is from the cluster `by`.
pub fn batches_end_with_a_sync()
    ensures ends { (p : Process) (by : ClusterNo) → EndsWithSync p (batch p by) }
    ensures own { (p : Process) (by : ClusterNo) → All (λ (post : Post). post.by ≡ Cluster by) (batch p by) }
{}

/// A law and no code: each marked page is in the batch with its bytes, and no other page. Their numbers rise, so none
/// is there twice.
pub fn batches_have_the_marked_pages()
    ensures each { (p : Process) (by : ClusterNo) (i : ℕ) → page_in (pages_sent (batch p by)) i ≡ (if is_marked p i then Some (page_at (p.ram).bytes i) else None) }
    ensures rising { (p : Process) (by : ClusterNo) → IsStrictlySortedBy nat_cmp (keys_of (pages_sent (batch p by))) }
{}

/// A law and no code: once the pages of a batch came, an account has each marked page as the process has it, and any
/// other as before. One that had each page without a mark has the whole memory then. What was kept stays.
pub fn batches_bring_accounts_up_to_date()
    ensures now { (p : Process) (by : ClusterNo) (a : Account) (i : ℕ) → page_in (with_pages (pages_sent (batch p by)) a).now i ≡ (if is_marked p i then Some (page_at (p.ram).bytes i) else page_in a.now i) }
    ensures whole { (p : Process) (by : ClusterNo) (a : Account) → HasUnmarked p a → (with_pages (pages_sent (batch p by)) a).now ≡ whole_memory p }
    ensures kept { (p : Process) (by : ClusterNo) (a : Account) → (with_pages (pages_sent (batch p by)) a).kept ≡ a.kept }
{}

/// A law and no code: a process that has just synchronised has no page to send, and is due again only where a limit
/// is 0.
pub fn synchronised_processes_have_nothing_to_send()
    ensures alone { (p : Process) (by : ClusterNo) → batch (synced p) by ≡ sync_post (synced p) by ∷ [] }
    ensures due { (p : Process) (reads steps : ℕ) → 1 ≤ reads → 1 ≤ steps → is_due_by (synced p) reads steps ≡ false }
{}

/// A law and no code: a process that has just synchronised can take no signal, since its handler runs or it closes. One
/// that can take none synchronises as it is, and its last post names no signal.
pub fn signals_are_taken_at_most_once()
    ensures after { (p : Process) → can_take (state_of (synced p)) ≡ false }
    ensures untaken { (p : Process) → can_take (state_of p) ≡ false → cut_of p ≡ p }
    ensures unnamed { (p : Process) → can_take (state_of p) ≡ false → took_by p ≡ None }
{}
