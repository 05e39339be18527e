//! The points in time that are open.

ghost use Rattle.std.specs.Prelude.{◌≡◌, ◌≤◌, ◌<◌, ◌+◌, ◌^◌, ◌↔◌, true, length, Err, IfOk, OnOk, OnErr};
ghost use Rattle.std.specs.Option.{option_map};
ghost use Rattle.point_in_time.specs.Points.{entries_under, is_full, is_open, most_open, no_points, with_point, without_point};

use crate::OpenRefusal;
use indexmap::IndexMap;
use segment_view::View;
use std::alloc::Global;
use std::marker::Model;

/// The most points in time that may be open.
pub const MOST_OPEN: u64 = 500;

/// The points in time that are open, in the order of their ids, which are 1, 2, 3 and so on as they are opened.
#[derive(Drop)]
pub struct PointsInTime {
    views: IndexMap<u64, View>,
    opened: u64,
}

impl Model for PointsInTime {
    ghost use Rattle.std.specs.Prelude.{map};
    ghost use Rattle.point_in_time.specs.Points.{ArePoints, KeptPoints, point_of};

    ghost Value = { KeptPoints };

    ghost view = { λ it. record { points = map point_of it.views.entries; opened = it.opened } };

    ghost invariant = { λ it. ArePoints (record { points = map point_of it.views.entries; opened = it.opened }) };
}

impl PointsInTime {
    /// None yet. Takes no memory.
    pub fn none(alloc: Global) -> PointsInTime
        ensures { result ≡ no_points }
    {
        PointsInTime {
            views: IndexMap::new(alloc),
            opened: 0,
        }
    }

    /// How many are open.
    pub fn open_count(&self) -> u64
        ensures count { result ≡ length self.now.points }
        ensures few { result ≤ most_open }
    {
        self.views.len() as u64
    }

    /// Whether as many are open as there may be.
    pub fn is_full(&self) -> bool
        ensures { result ≡ is_full self.now }
    {
        self.open_count() >= MOST_OPEN
    }

    /// Opens a point in time on a view, under the next id.
    pub fn open(&mut self, view: View) -> Result<u64, OpenRefusal>
        requires { self.old.opened < 2 ^ 63 }
        ensures id { IfOk result (λ id. id ≡ self.old.opened + 1) }
        ensures opened { OnOk result (self.new ≡ with_point view self.old) }
        ensures many { result ≡ Err OpenRefusal.TooMany ↔ is_full self.old ≡ true }
        ensures same { OnErr result (self.new ≡ self.old) }
    {
        if self.is_full() {
            return Err(OpenRefusal::TooMany);
        }
        let id = self.opened + 1;
        self.views.insert(id, view)?;
        self.opened = id;
        Ok(id)
    }

    /// Whether a point in time is open under an id.
    pub fn is_open(&self, id: u64) -> bool
        ensures { result ≡ is_open id self.now.points }
    {
        self.views.contains_key(&id)
    }

    /// The view of a point in time; None exactly where none is open under that id.
    pub fn view(&self, id: u64) -> Option<&View>
        ensures { option_map (λ view. view.now) result ≡ entries_under id self.now.points }
    {
        self.views.get(&id)
    }

    /// Closes a point in time, and tells whether one was open under that id.
    pub fn close(&mut self, id: u64) -> bool
        ensures was { result ≡ is_open id self.old.points }
        ensures closed { self.new ≡ without_point id self.old }
    {
        let _once = self.views.len();
        self.views.shift_remove(&id).is_some()
    }
}
