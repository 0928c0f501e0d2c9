// What follows for every heap: stale handles, bytes that are left, leaks, what quotas see and change of each other, and who pays. Laws only.
#![tactic(auto)]
