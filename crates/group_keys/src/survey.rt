// Whether old siblings can be listed by their numbers.
use crate::SiblingKey;
use rt_values::Value;

/// What is known of old siblings before they are queued: how many there are, and whether all have one site and a number
/// as key. No function of a survey has a contract: a survey decides about time and memory only, and `SiblingQueues`
/// keep their promises after any survey.
#[derive(Drop, Clone, Copy)]
pub struct KeySurvey {
    count: usize,
    site: u32,
    are_numbers: bool,
    lowest: i64,
    highest: i64,
}

impl KeySurvey {
    /// Returns the survey of no siblings.
    pub fn new() -> KeySurvey {
        KeySurvey {
            count: 0,
            site: 0,
            are_numbers: true,
            lowest: i64::MAX,
            highest: i64::MIN,
        }
    }

    /// Counts the sibling with this key.
    #[inline(always)]
    pub fn add(&mut self, key: &SiblingKey) {
        if self.count == 0 {
            self.site = key.site;
        }
        self.count = self.count.saturating_add(1);
        match key.key {
            Some(Value::Int(number)) if self.site == key.site => {
                self.lowest = self.lowest.min(*number);
                self.highest = self.highest.max(*number);
            }
            _ => self.are_numbers = false,
        }
    }

    // Returns the number of siblings.
    pub(crate) fn count(&self) -> usize {
        self.count
    }

    // Returns the site of the first sibling.
    pub(crate) fn site(&self) -> u32 {
        self.site
    }

    // Returns the lowest number.
    pub(crate) fn lowest(&self) -> i64 {
        self.lowest
    }

    // Returns the length of a list with an entry for each number from the lowest to the highest, if each sibling has
    // the same site and a number, and at most about half of the entries stay unused.
    pub(crate) fn list_length(&self) -> Option<usize> {
        let spread = self.highest.abs_diff(self.lowest) as usize;
        if self.are_numbers && spread / 2 < self.count.saturating_add(8) {
            spread.checked_add(1)
        } else {
            None
        }
    }
}
