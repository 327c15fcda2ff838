// How a plan is found.
ghost use Rattle.planning.specs.Plans.{Plans};

use super::Planner;
use crate::copying::write_over;
use crate::error::PlanError;
use expanded::{DayNetwork, Schedule};
use ranking::DepotOrder;

impl Planner {
    // Looks for a plan that delivers just what is owed, and writes its loads: that of the lane l in the period t at l × 48 + t.
    pub fn plan(
        &mut self,
        schedule: Schedule,
        owed: &[u32],
        plan: &mut [u32],
    ) -> Result<(), PlanError>
        ensures { Plans schedule.entry owed.now plan.old plan.new result }
    {
        // With no ranking, all owed has the only rank.
        let day = DayNetwork::new(schedule, owed, None::<DepotOrder>)?;
        let count = schedule.lanes.len() * 48;
        if plan.len() < count {
            return Err(PlanError::PlanTooShort);
        }
        if !self.ask(&day, owed, 1) {
            return Err(PlanError::Unservable);
        }
        write_over(plan, &self.loads[..count]);
        Ok(())
    }
}
