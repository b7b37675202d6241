// What a source runs.
ghost use Rattle.std.specs.Prelude.{◌≡◌, ◌+◌, ◌^◌, ◌<◌, ℕ};
ghost use Rattle.gcd_plan.specs.declared.kind.Kind.{Kind};
ghost use Rattle.gcd_plan.specs.KindValues.{folded};

/// What a source runs at each delivery (dispatch_source_set_event_handler(3)). A handler is of the kind of its source; it
/// keeps how many values it took, and all of them in one.
pub trait Handler {
    // the kind of its source
    ghost kind: { Self → Kind };

    // how many values it took
    ghost times: { Self → ℕ };

    // these values in one, 0 before the first: joined bit by bit at an or source, the newest at a replace source, and else added
    ghost total: { Self → ℕ };

    /// Takes the value of a delivery (dispatch_source_get_data(3)). Conditions: neither the times nor the total passes the
    /// end of its type.
    fn take(&mut self, value: u64)
        requires times_fit { times self.old + 1 < 2 ^ 32 }
        requires total_fits { folded (kind self.old) (total self.old) value < 2 ^ 64 }
        ensures same_kind { kind self.new ≡ kind self.old }
        ensures once_more { times self.new ≡ times self.old + 1 }
        ensures folded_in { total self.new ≡ folded (kind self.old) (total self.old) value };
}
