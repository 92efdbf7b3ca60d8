//! What the check of names says.
ghost use Rattle.capnp_json_names.specs.Distinct.{FirstMeetingIsFirst, NoneMeetWhereApart};

/// No names meet in a set just where its names in JSON are apart.
pub fn none_meet_where_apart()
    ensures { NoneMeetWhereApart }
{}

/// What is told to meet stands before all else that does.
pub fn first_meeting_is_first()
    ensures { FirstMeetingIsFirst }
{}
