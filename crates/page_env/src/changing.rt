//! What a page becomes after it was closed.

ghost use Rattle.page_env.specs.Answers.{Changes, changed};

use crate::change::PageChange;
use crate::defaults::return_to_start;
use crate::job_control::set_sides;
use crate::motion::go_home;
use crate::page::{Env, Page};
use crate::page_control::{set_orientation, set_size, set_source};

/// Does what an item does after a marked page was closed.
pub fn change_page(defaults: &Env, page: &mut Page, change: PageChange)
    ensures { Changes (λ d s. changed d s change) defaults.now page.old page.new }
{
    match change {
        PageChange::Size(n) => set_size(page, n),
        PageChange::Orientation(n) => set_orientation(defaults, page, n),
        PageChange::Sides(n) => set_sides(page, n),
        PageChange::Tray(n) => set_source(page, n),
        PageChange::Home => go_home(page),
        PageChange::Defaults => return_to_start(defaults, page),
    }
}
