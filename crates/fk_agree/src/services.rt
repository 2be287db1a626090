ghost use Rattle.fk_agree.specs.Services.{NewServicesStand, ServicesStay};

/// A law: new services stand as no history says, and a line that changes none of them leaves them
/// as they stand.
pub fn services_start_and_stay()
    ensures new { NewServicesStand }
    ensures stays { ServicesStay }
{}
