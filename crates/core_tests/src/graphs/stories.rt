//! What is added, and how strongly it is reachable then.

use super::agree_in_new;

#[test]
fn each_object_has_its_strength_and_all_come_by_number(rt: HostRuntime) {
    // A root and its three references, one of each strength, with an object behind each, and more behind two of those.
    let story = "
        root 1 : new; plain 10 : new; plain 1 2 - 4 6 : new; soft 2 3 : new; plain 3 : new; weak 4 5 : new
        plain 5 8 : new; phantom 6 7 : new; plain 7 9 : new; plain 9 : new; plain 8 : new
        strength 1 : strong; strength 2 : strong; strength 3 : soft; strength 4 : strong; strength 5 : weak
        strength 6 : strong; strength 7 : phantom; strength 8 : weak; strength 9 : unreachable
        strength 10 : unreachable
        strengths : 1 strong 2 strong 3 soft 4 strong 5 weak 6 strong 7 phantom 8 weak 9 unreachable 10 unreachable";
    agree_in_new(&rt, rt.alloc(), story);
}

#[test]
fn a_new_graph_has_no_objects(rt: HostRuntime) {
    let story = "strength 1 : refused NoSuchObject; strengths : none";
    agree_in_new(&rt, rt.alloc(), story);
}

#[test]
fn a_number_is_added_once(rt: HostRuntime) {
    let story = "
        root 1 : new; root 1 : known; plain 1 2 : new; plain 2 : new
        # Neither takes the field away that leads to 2.
        plain 1 : known; weak 1 - : known
        strength 1 : strong; strength 2 : strong; strengths : 1 strong 2 strong";
    agree_in_new(&rt, rt.alloc(), story);
}

#[test]
fn an_object_has_at_most_eight_fields(rt: HostRuntime) {
    let story = "
        plain 1 2 2 2 2 2 2 2 2 2 : refused BadField; soft 1 - 2 2 2 2 2 2 2 2 2 : refused BadField; strengths : none
        plain 1 2 2 2 2 2 2 2 2 : new; soft 3 - 2 2 2 2 2 2 2 2 : new
        # That there are too many fields is told before that the number is there.
        plain 1 2 2 2 2 2 2 2 2 2 : refused BadField";
    agree_in_new(&rt, rt.alloc(), story);
}

#[test]
fn a_number_without_an_object_is_on_no_path(rt: HostRuntime) {
    let story = "
        root 1 : new; plain 2 : new
        # The root has no object, so no path begins there, and 2 is no root.
        strength 1 : refused NoSuchObject; strength 2 : unreachable
        # As it gets one, a path begins there, whose second step leads nowhere.
        plain 1 3 2 : new; strength 1 : strong; strength 2 : strong; strength 3 : refused NoSuchObject";
    agree_in_new(&rt, rt.alloc(), story);
}

#[test]
fn the_strongest_path_counts(rt: HostRuntime) {
    let story = "
        root 1 : new; root 2 : new; weak 1 3 : new; soft 2 3 : new
        # A soft object whose weak reference leads to 4, and a phantom reference that is itself weakly reachable.
        weak 3 4 : new; phantom 4 5 : new; phantom 5 6 : new; plain 6 : new
        strength 3 : soft; strength 4 : weak; strength 5 : phantom
        # The reference to 6 is itself only phantom reachable.
        strength 6 : unreachable";
    agree_in_new(&rt, rt.alloc(), story);
}
