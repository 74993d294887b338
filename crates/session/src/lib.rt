// What holds of every session: the buyer's three demands, and what requests say of sessions, as
// theorems over the calls. There is no code here.
//
// specs/Sessions.antt says what a session is, specs/Changes.antt what calls do to zones,
// specs/Demands.antt what is demanded, specs/Sources.antt what is said of sources, specs/Bookings.antt
// what of bookings, specs/Recipes.antt what of recipes and, over specs/Inputs.antt, specs/Order.antt what
// of the order of sending and specs/Neighbours.antt what of the traffic of other zones. Above each
// statement stands the file of its proof.
#![tactic(auto)]
