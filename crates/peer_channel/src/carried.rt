ghost use Rattle.std.specs.Prelude.{◌≡◌};

use ledger_law::{Change, Ledger};
use party_ledgers::{Body, Demand, Grants, JoinLedger, RowChange, RowLedger};
use schedule_unit::Role;

/// A ledger that packets carry: from which role to which, and how it and its changes stand in a packet's body.
pub trait Carried: Ledger {
    ghost use Rattle.std.specs.Prelude.{◌≡◌, ℕ, IsTrue, Result, Ok};
    ghost use Rattle.fuxi_terms.specs.Counts.{then_do};
    ghost use Rattle.schedule_unit.specs.declared.party.Role.{Role};
    ghost use Rattle.party_ledgers.specs.declared.packets.Body.{Body};
    ghost use Rattle.party_ledgers.specs.declared.packets.Kind.TheVariants.{Delta as IsDelta, Full as IsFull};
    ghost use Rattle.party_ledgers.specs.Packets.{IsBodyOf, is_number_of};
    ghost use Rattle.spec_net.specs.Net.{Id};
    ghost use Rattle.spec_net.specs.Ledgers.{Ledger as WrittenLedger, nothing as written_nothing, whole_body, change_body};
    ghost use Rattle.spec_net.specs.Channels.{is_agent, dropped_by};
    ghost use Rattle.spec_net.specs.Sides.{patched_by};
    ghost use Rattle.peer_channel.specs.Parcels.{id_of, content_of};

    /// Who sends it.
    ghost from_role: { Role };

    /// Who receives it.
    ghost to_role: { Role };

    /// What it is in the written net.
    ghost stated: { Self → WrittenLedger };

    /// The body with the whole ledger.
    ghost whole: { Self → Body };

    /// The body with a change.
    ghost changed: { Self.Delta → Body };

    /// Who sends it.
    fn sender() -> Role
        ensures { result ≡ from_role };

    /// Who receives it.
    fn receiver() -> Role
        ensures { result ≡ to_role };

    /// Puts the whole ledger into a body.
    fn whole_body(self) -> Body
        ensures { result ≡ whole self };

    /// Puts a change into a body.
    fn change_body(change: Self::Delta) -> Body
        ensures { result ≡ changed change };

    /// The whole ledger in the body of a Full of this channel.
    fn whole_in(body: &Body) -> &Self
        requires { IsBodyOf body.now IsFull from_role to_role }
        ensures { body.now ≡ whole result.now };

    /// The same, moved out of the body.
    fn whole_of(body: Body) -> Self
        requires { IsBodyOf body IsFull from_role to_role }
        ensures { body ≡ whole result };

    /// The change in the body of a Delta of this channel.
    fn change_in(body: &Body) -> &Self::Delta
        requires { IsBodyOf body.now IsDelta from_role to_role }
        ensures change { body.now ≡ changed result.now }
        ensures form { Self.has_delta_form result.now };

    /// What every value of the type is. It does nothing.
    fn is_valid(&self)
        ensures { Self.has_form self.now };

    /// The ledger with no entry is that of the written net.
    ghost empty_is: { stated Self.nothing ≡ written_nothing };

    /// What the whole ledger in a body says.
    ghost whole_is: { (m n : ℕ) (v : Self) → content_of (whole v) ≡ whole_body (is_agent (id_of to_role n)) (is_agent (id_of from_role m)) (stated v) };

    /// What a change in a body says: what leads from one ledger to the other.
    ghost change_is: { (m n : ℕ) (a b : Self) (c : Self.Delta) → IsTrue (is_number_of from_role m) → Self.has_form a → Self.has_form b → Self.has_delta_form c → Self.patched a c ≡ Ok b
        → content_of (changed c) ≡ change_body (is_agent (id_of to_role n)) (is_agent (id_of from_role m)) (dropped_by (id_of from_role m)) (stated a) (stated b) };

    /// Both bodies may be sent.
    ghost whole_formed: { (v : Self) → IsBodyOf (whole v) IsFull from_role to_role };

    /// The body of a change may be sent where the change has a written form.
    ghost change_formed: { (c : Self.Delta) → Self.has_delta_form c → IsBodyOf (changed c) IsDelta from_role to_role };

    /// A whole ledger replaces what was received.
    ghost whole_makes: { (from : Id) (got : WrittenLedger) (v : Self) → patched_by from got (content_of (whole v)) ≡ Ok (stated v) };

    /// A change makes of what was received what it makes in the program.
    ghost change_makes: { (m : ℕ) (v : Self) (c : Self.Delta) → IsTrue (is_number_of from_role m)
        → patched_by (id_of from_role m) (stated v) (content_of (changed c)) ≡ then_do (Self.patched v c) (λ w. Ok (stated w)) };
}

impl Carried for RowLedger {
    ghost use Rattle.std.proofs.Common.{refl};
    ghost use Rattle.schedule_unit.specs.declared.party.Role.TheVariants.{Master, Agent};
    ghost use Rattle.party_ledgers.specs.declared.packets.Body.TheVariants.{Row, RowDelta};
    ghost use Rattle.spec_net.specs.Ledgers.{row_ledger};
    ghost use Rattle.peer_channel.specs.Bodies.{rows_are};

    ghost from_role = { Master };

    ghost to_role = { Agent };

    ghost stated = { row_ledger };

    ghost whole = { Row };

    ghost changed = { RowDelta };

    ghost empty_is = { refl };

    ghost whole_is = { λ m n v. refl };

    ghost change_is = { rows_are };

    ghost whole_formed = { λ v. refl };

    ghost change_formed = { λ c h. (refl, h) };

    ghost whole_makes = { λ from got v. refl };

    ghost change_makes = { λ m v c h. refl };

    fn sender() -> Role {
        Role::Master
    }

    fn receiver() -> Role {
        Role::Agent
    }

    fn whole_body(self) -> Body {
        Body::Row(self)
    }

    fn change_body(change: RowChange) -> Body {
        Body::RowDelta(change)
    }

    fn whole_in(body: &Body) -> &RowLedger {
        match body {
            Body::Row(row) => row,
            _ => unreachable!(),
        }
    }

    fn whole_of(body: Body) -> RowLedger {
        match body {
            Body::Row(row) => row,
            _ => unreachable!(),
        }
    }

    fn change_in(body: &Body) -> &RowChange {
        match body {
            Body::RowDelta(change) => change,
            _ => unreachable!(),
        }
    }

    fn is_valid(&self) {
        let _len = self.len();
    }
}

impl Carried for JoinLedger {
    ghost use Rattle.std.proofs.Common.{refl};
    ghost use Rattle.schedule_unit.specs.declared.party.Role.TheVariants.{Master, Agent};
    ghost use Rattle.party_ledgers.specs.declared.packets.Body.TheVariants.{Join};
    ghost use Rattle.peer_channel.specs.Bodies.{report_of, reports_are};

    ghost from_role = { Agent };

    ghost to_role = { Master };

    ghost stated = { report_of };

    ghost whole = { Join };

    ghost changed = { Join };

    ghost empty_is = { refl };

    ghost whole_is = { λ m n v. refl };

    ghost change_is = { λ m n a b c h ha hb hc made. reports_are m n a b c made };

    ghost whole_formed = { λ v. refl };

    ghost change_formed = { λ c h. refl };

    ghost whole_makes = { λ from got v. refl };

    ghost change_makes = { λ m v c h. refl };

    fn sender() -> Role {
        Role::Agent
    }

    fn receiver() -> Role {
        Role::Master
    }

    fn whole_body(self) -> Body {
        Body::Join(self)
    }

    fn change_body(change: JoinLedger) -> Body {
        Body::Join(change)
    }

    fn whole_in(body: &Body) -> &JoinLedger {
        match body {
            Body::Join(join) => join,
            _ => unreachable!(),
        }
    }

    fn whole_of(body: Body) -> JoinLedger {
        match body {
            Body::Join(join) => join,
            _ => unreachable!(),
        }
    }

    fn change_in(body: &Body) -> &JoinLedger {
        match body {
            Body::Join(join) => {
                join.is_valid();
                join
            }
            _ => unreachable!(),
        }
    }

    fn is_valid(&self) {
        let _epoch = self.epoch();
        let _len = self.table().len();
    }
}

impl Carried for Grants {
    ghost use Rattle.std.proofs.Common.{refl};
    ghost use Rattle.schedule_unit.specs.declared.party.Role.TheVariants.{Master, App};
    ghost use Rattle.party_ledgers.specs.declared.packets.Body.TheVariants.{Grants as GrantsBody, GrantsDelta};
    ghost use Rattle.peer_channel.specs.Bodies.{tally_of, grants_are, grants_make};

    ghost from_role = { Master };

    ghost to_role = { App };

    ghost stated = { tally_of };

    ghost whole = { GrantsBody };

    ghost changed = { GrantsDelta };

    ghost empty_is = { refl };

    ghost whole_is = { λ m n v. refl };

    ghost change_is = { grants_are };

    ghost whole_formed = { λ v. refl };

    ghost change_formed = { λ c h. (refl, h) };

    ghost whole_makes = { λ from got v. refl };

    ghost change_makes = { grants_make };

    fn sender() -> Role {
        Role::Master
    }

    fn receiver() -> Role {
        Role::App
    }

    fn whole_body(self) -> Body {
        Body::Grants(self)
    }

    fn change_body(change: Change) -> Body {
        Body::GrantsDelta(change)
    }

    fn whole_in(body: &Body) -> &Grants {
        match body {
            Body::Grants(grants) => grants,
            _ => unreachable!(),
        }
    }

    fn whole_of(body: Body) -> Grants {
        match body {
            Body::Grants(grants) => grants,
            _ => unreachable!(),
        }
    }

    fn change_in(body: &Body) -> &Change {
        match body {
            Body::GrantsDelta(change) => change,
            _ => unreachable!(),
        }
    }

    fn is_valid(&self) {
        let _head = self.head();
        let _entries = self.entries();
    }
}

impl Carried for Demand {
    ghost use Rattle.std.proofs.Common.{refl};
    ghost use Rattle.schedule_unit.specs.declared.party.Role.TheVariants.{Master, App};
    ghost use Rattle.party_ledgers.specs.declared.packets.Body.TheVariants.{Demand as DemandBody, DemandDelta};
    ghost use Rattle.peer_channel.specs.Bodies.{tally_of, demands_are};

    ghost from_role = { App };

    ghost to_role = { Master };

    ghost stated = { tally_of };

    ghost whole = { DemandBody };

    ghost changed = { DemandDelta };

    ghost empty_is = { refl };

    ghost whole_is = { λ m n v. refl };

    ghost change_is = { demands_are };

    ghost whole_formed = { λ v. refl };

    ghost change_formed = { λ c h. (refl, h) };

    ghost whole_makes = { λ from got v. refl };

    ghost change_makes = { λ m v c h. refl };

    fn sender() -> Role {
        Role::App
    }

    fn receiver() -> Role {
        Role::Master
    }

    fn whole_body(self) -> Body {
        Body::Demand(self)
    }

    fn change_body(change: Change) -> Body {
        Body::DemandDelta(change)
    }

    fn whole_in(body: &Body) -> &Demand {
        match body {
            Body::Demand(demand) => demand,
            _ => unreachable!(),
        }
    }

    fn whole_of(body: Body) -> Demand {
        match body {
            Body::Demand(demand) => demand,
            _ => unreachable!(),
        }
    }

    fn change_in(body: &Body) -> &Change {
        match body {
            Body::DemandDelta(change) => change,
            _ => unreachable!(),
        }
    }

    fn is_valid(&self) {
        let _head = self.head();
        let _entries = self.entries();
    }
}
