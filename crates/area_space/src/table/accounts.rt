//! Accounts: what areas and levels are charged.
ghost use Rattle.std.specs.Prelude.{◌≡◌, ◌*◌, ◌<◌, ◌≤◌};
ghost use Rattle.area_space.specs.Table.{areas_of, levels_of, slots_of, quota_of};
ghost use Rattle.area_space.specs.Accounts.{debt, account_of, level_total};

use super::RegionTable;

impl RegionTable {
    /// The account of an area, in words: the charges and the husks of its classes, old ones
    /// included. It is at most the quota of the area.
    pub fn account(&self, area: u8) -> u32
        requires { area < areas_of self.now }
        ensures value { result ≡ account_of self.now area }
        ensures at_most { result ≤ quota_of self.now area }
    {
        self.debts[area as usize]
    }

    /// The charges and the husks of the live classes of a level, in all areas, in words. Its time
    /// grows with the areas.
    pub fn total(&self, level: u8) -> u32
        requires { level < levels_of self.now }
        ensures { result ≡ level_total self.now level }
    {
        let areas = self.areas();
        let mut sum = 0u32;
        for area in 0..areas {
            let slot = self.slot(area as u8, level);
            sum += self.debt(2 * slot);
        }
        sum
    }

    // The charges and the husks of a class.
    pub(super) fn debt(&self, class: u32) -> u32
        requires { class < 2 * slots_of self.now }
        ensures value { result ≡ debt self.now class }
        ensures at_most { result ≤ 1048576 }
    {
        self.charges[class as usize] + self.husks[class as usize]
    }
}
