//! Armed power losses, and what they leave as the hosts here read a pick.
ghost use Rattle.std.specs.Prelude.{◌≡◌};
ghost use Rattle.pm_model.specs.Calls.{counted_down};
ghost use Rattle.pm_model.specs.Picking.{keeps_newest};

/// A cut that will come at the `steps`-th device step from now.
#[derive(Clone, Copy, Debug)]
pub struct Armed {
    pub steps: u32,
    pub pick: u64,
}

/// What is armed after a device step that was carried out: the same cut, one step nearer. A count of 0 steps stays 0.
pub fn counted_down(armed: Option<Armed>) -> Option<Armed>
    ensures { result ≡ counted_down armed }
{
    match armed {
        Some(cut) => Some(Armed {
            steps: cut.steps.saturating_sub(1),
            pick: cut.pick,
        }),
        None => None,
    }
}

/// Whether a power loss with this pick leaves a word its newest value and not its durable one. With pick 0 no word
/// keeps its newest value, and with pick 1 each word does. With any other pick those words do for which bit `word % 64`
/// of the pick is set.
pub fn keeps_newest(pick: u64, word: usize) -> bool
    ensures { result ≡ keeps_newest pick word }
{
    pick == 1 || (pick >> (word % 64)) % 2 == 1
}
