//! Laws of windows and queues, and of what is sent over time.
ghost use Rattle.std.specs.Prelude.{◌≡◌, ℕ, ◌+◌, ◌^◌, ◌<◌, ◌≤◌, ◌==◌, List, length, map, count_by};
ghost use Rattle.std.specs.List.{range_with_len};
ghost use Rattle.command_queue.specs.Pending.{Pending, IsSound, with_command, without_command};
ghost use Rattle.command_queue.specs.declared.window.Window.{Window};
ghost use Rattle.command_queue.specs.Orders.{Agrees, window_without};
ghost use Rattle.command_queue.specs.Moves.{Move, fresh_orders, all_sent};

/// The window and the queue go on agreeing where a command is put, and where one is taken and then cancelled.
#[tactic(auto, using(crate::proofs::Agreement::agrees_put, crate::proofs::Agreement::agrees_cancelled))]
pub fn moves_keep_agreement()
    ensures put { (window : Window) (queue : Pending) (payload : List ℕ) → Agrees window queue
        → Agrees window (with_command queue payload) }
    ensures cancelled { (window : Window) (queue : Pending) (id : ℕ) → IsSound queue → Agrees window queue
        → Agrees (window_without id window) (without_command id queue) }
{}

/// Whatever happens to the commands of a meter: each downlink's counter is one above the last, from the commissioned one on, and
/// none is past the last of four bytes; and no command is sent more than three times.
pub fn sent_over_time()
    ensures counters { (ids down : ℕ) (moves : List Move) → let sent = all_sent (fresh_orders ids down) moves
        in map (λ s. s.down) sent ≡ range_with_len (down + 1) (length sent) }
    ensures fit { (ids down : ℕ) (moves : List Move) → down < 2 ^ 32
        → down + length (all_sent (fresh_orders ids down) moves) < 2 ^ 32 }
    ensures tries { (ids down : ℕ) (moves : List Move) (id : ℕ)
        → count_by (λ s. s.id == id) (all_sent (fresh_orders ids down) moves) ≤ 3 }
{}
